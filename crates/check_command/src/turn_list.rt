// Lists of turns as text.
ghost use Rattle.std.specs.Prelude.{◌≡◌, ◌++◌, IfOk, OnOk};
ghost use Rattle.check_command.specs.TurnList as spec;

use hls_io::{Bytes, put_dec};
use std::alloc::{AllocError, Global};
use turns::Turn;

/// Appends a turn: `i` for one step of thread i, else `i*k`.
fn put_turn(text: &mut Bytes, turn: Turn) -> Result<(), AllocError>
    ensures { OnOk result (text.new ≡ text.old ++ spec.turn_text turn) }
{
    put_dec(text, turn.thread as i128)?;
    if turn.steps != 1 {
        text.push(b'*')?;
        put_dec(text, turn.steps as i128)?;
    }
    Ok(())
}

/// Appends turns, each behind a comma.
fn put_more(text: &mut Bytes, turns: &[Turn]) -> Result<(), AllocError>
    ensures { OnOk result (text.new ≡ text.old ++ spec.more_text turns.now) }
{
    for turn in turns {
        text.push(b',')?;
        put_turn(text, *turn)?;
    }
    Ok(())
}

/// The list of these turns, with a line feed behind it.
pub fn listed(alloc: Global, turns: &[Turn]) -> Result<Bytes, AllocError>
    ensures { IfOk result (λ text. text ≡ spec.list_line turns.now) }
{
    let mut text = Bytes::new(alloc);
    if let Some((first, more)) = turns.split_first() {
        put_turn(&mut text, *first)?;
        put_more(&mut text, more)?;
    }
    text.push(b'\n')?;
    Ok(text)
}
