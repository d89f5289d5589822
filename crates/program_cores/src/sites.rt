// What the printf calls of a program write.

ghost use Rattle.std.specs.Prelude.{◌≡◌, [], ◌∷◌, ◌++◌, map, IfOk, OnOk};
ghost use Rattle.c_program.specs.Plain.{piece_of, pieces_of, statement_of, function_of, program_of};
ghost use Rattle.law_cycle.specs.Built.{part_of};
ghost use Rattle.program_cores.specs.Sites.{site_of, sites_in, sites_of};

use c_program::tree::{Piece, Program, Statement};
use printer_cores::format::Part;
use sqlite_items::Items;
use std::alloc::{AllocError, Global};

/// A literal piece of a format, or the conversion of a value.
fn part_of(alloc: Global, piece: &Piece) -> Result<Part, AllocError>
    ensures { IfOk result (λ part. part ≡ part_of (piece_of piece.now)) }
{
    match piece {
        Piece::Text(bytes) => {
            let text = Items::from_slice(alloc, bytes.as_slice())?;
            Ok(Part::Text(text))
        }
        Piece::Conversion(ty) if ty.is_signed() => Ok(Part::Signed),
        Piece::Conversion(_) => Ok(Part::Unsigned),
    }
}

/// The site of a format.
fn site_of(alloc: Global, pieces: &[Piece]) -> Result<Items<Part>, AllocError>
    ensures { IfOk result (λ parts. parts ≡ site_of (pieces_of pieces.now)) }
{
    let mut parts = Items::new(alloc);
    for piece in pieces {
        let part = part_of(alloc, piece)?;
        parts.push(part)?;
    }
    Ok(parts)
}

fn push_site(
    alloc: Global,
    pieces: &[Piece],
    sites: &mut Items<Items<Part>>,
) -> Result<(), AllocError>
    ensures { OnOk result (sites.new ≡ sites.old ++ site_of (pieces_of pieces.now) ∷ []) }
{
    let site = site_of(alloc, pieces)?;
    sites.push(site)?;
    Ok(())
}

/// Appends the sites of a statement in the order of the text.
fn push_sites(
    alloc: Global,
    statement: &Statement,
    sites: &mut Items<Items<Part>>,
) -> Result<(), AllocError>
    ensures { OnOk result (sites.new ≡ sites.old ++ sites_in (statement_of statement.now)) }
{
    let mut rest = statement;
    while let Statement::Sequence(first, next) = rest {
        push_sites(alloc, first, sites)?;
        rest = next;
    }
    match rest {
        Statement::Block(body)
        | Statement::While(_, body)
        | Statement::DoWhile(body, _)
        | Statement::Switch(_, _, _, body) => push_sites(alloc, body, sites),
        Statement::If(_, consequent, alternative) => {
            push_sites(alloc, consequent, sites)?;
            push_sites(alloc, alternative, sites)
        }
        Statement::For(first, _, last, body) => {
            push_sites(alloc, first, sites)?;
            push_sites(alloc, last, sites)?;
            push_sites(alloc, body, sites)
        }
        Statement::Print(_, pieces, _) => push_site(alloc, pieces.as_slice(), sites),
        _ => Ok(()),
    }
}

/// The sites of a program: its printf calls in the order of the text.
pub fn print_sites(alloc: Global, program: &Program) -> Result<Items<Items<Part>>, AllocError>
    ensures { IfOk result (λ sites. sites ≡ sites_of (program_of program.now)) }
{
    let mut sites = Items::new(alloc);
    let functions = program.functions.as_slice();
    for function in functions {
        push_sites(alloc, &function.body, &mut sites)?;
    }
    Ok(sites)
}

/// The most values that a printf call writes.
pub const PRINT_VALUES: usize = 4;
