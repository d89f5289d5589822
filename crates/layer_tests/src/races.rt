// What the next steps of small programs touch, and the first race among them.

use c_interpreter::step::step;
use c_profile::accept;
use c_program::tree::Program;
use c_state::state::{State, start};
use race_check::footprint::footprint;
use race_check::race::races;
use sqlite_items::Items;
use std::alloc::{AllocError, Global};
use std::process::Abort;
use std::test::Fail;
use turns::{Turn, turns};

/// Two threads add to one global, without a mutex.
const ADDING: &str =
    "pthread_t t[2]; pthread_mutex_t m; int sum; void *w(void *arg){int i; for (i = 0; i < 100; i++){sum = sum + 1;} return NULL;} int \
    main(void){pthread_mutex_init(&m, NULL); int i; for (i = 0; i < 2; i++) pthread_create(&t[i], NULL, w, (void *)(long)i); for (i = 0; i < 2; i++) \
    pthread_join(t[i], NULL); printf(\"%d\\n\", sum); return 0;}";

/// A thread waits at a barrier before it writes.
const WAITING: &str =
    "pthread_t t; pthread_barrier_t b; int x; void *w(void *arg){pthread_barrier_wait(&b); x = 1; return NULL;} int main(void){pthread_barrier_init(&b, NULL, \
    2); pthread_create(&t, NULL, w, NULL); x = 2; pthread_barrier_wait(&b); x = 3; pthread_join(t, NULL); return 0;}";

/// Main writes an element that two threads read, which write one global.
const CROSSING: &str =
    "pthread_t t[2]; int g[4]; int h; void *w(void *arg){h = g[3] + g[1]; return NULL;} int main(void){pthread_create(&t[0], NULL, w, NULL); \
    pthread_create(&t[1], NULL, w, NULL); g[3] = 5; return 0;}";

/// A text, its turns, a thread, and what the next step of the thread touches: for each read and write the global and the index.
/// Where there is no thread, it is the first race of all next steps, if there is one: its threads, and the global and the index
/// that both touch.
type Row = (&'static str, &'static str, &'static [usize], &'static str);

const ROWS: [Row; 20] = [
    (ADDING, "", &[], ""),
    (ADDING, "0*11,1*3", &[], ""),
    (ADDING, "0*11,1*3,2*3", &[], "1 and 2 at 0[0]"),
    // a thread that waits at the barrier races with none, though its next statement writes what main's does
    (WAITING, "0*4,1*2", &[], ""),
    (WAITING, "0*4,1*2,0*3", &[], "0 and 1 at 0[0]"),
    // main writes g[3], which both threads read; after it the threads write h
    (CROSSING, "0*4", &[], "0 and 1 at 0[3]"),
    (CROSSING, "0*5", &[], "1 and 2 at 1[0]"),
    (ADDING, "0*11,1*3", &[1], "r0[0] w0[0] "),
    // the right side, then the index, which reads k and an element itself
    (
        "int g[4]; int k; int main(void){k = 2; g[g[k]] = g[k] + 1; return 0;}",
        "0",
        &[0],
        "r1[0] r0[2] r1[0] r0[2] w0[0] ",
    ),
    // the right side, the index, the old value
    (
        "int g[4]; int k; int main(void){k = 2; g[k] += k; return 0;}",
        "0",
        &[0],
        "r1[0] r1[0] r0[2] w0[2] ",
    ),
    // rows of three elements: of each place both indices
    (
        "int g[2][3]; int k; int main(void){k = 1; g[k][k + 1] = g[0][k] + 1; return 0;}",
        "0",
        &[0],
        "r1[0] r0[1] r1[0] r1[0] w0[5] ",
    ),
    // the operand of ?:, and of a switch
    (
        "int x; int main(void){int y = x ? 1 : 2; return y;}",
        "",
        &[0],
        "r0[0] ",
    ),
    (
        "int x; int main(void){switch (x) {case 0: x = 1;} return 0;}",
        "",
        &[0],
        "r0[0] ",
    ),
    ("int x; int main(void){return x;}", "", &[0], "r0[0] "),
    // the arguments of printf, and then its act
    (
        "int x; int main(void){printf(\"%d\\n\", x); return 0;}",
        "",
        &[0],
        "r0[0] ",
    ),
    (
        "int x; int main(void){printf(\"%d\\n\", x); return 0;}",
        "0",
        &[0],
        "",
    ),
    // an undefined step: a divisor of 0, and a return of main while a thread lives
    ("int x; int main(void){x = 1 / x; return 0;}", "", &[0], ""),
    (
        "pthread_t t; int x; void *w(void *arg){return NULL;} int main(void){pthread_create(&t, NULL, w, NULL); return x;}",
        "0*2",
        &[0],
        "",
    ),
    // a waiter at a barrier, and no thread at all
    (WAITING, "0*4,1*2", &[1], ""),
    (WAITING, "", &[7], ""),
];

fn rows() -> &'static [Row] {
    &ROWS
}

/// The turns of a list, which may be empty.
fn listed(alloc: Global, list: &str) -> Result<Option<Items<Turn>>, AllocError> {
    if list.is_empty() {
        Ok(Some(Items::new(alloc)))
    } else {
        turns(alloc, list)
    }
}

/// Takes the steps of these turns.
fn take<'p>(
    alloc: Global,
    program: &'p Program,
    state: &mut State<'p>,
    turns: &[Turn],
) -> Result<(), AllocError> {
    for turn in turns {
        for _ in 0..turn.steps {
            step(alloc, program, state, turn.thread)?;
        }
    }
    Ok(())
}

/// What the next step of a thread touches.
fn shown_accesses<'p>(
    alloc: Global,
    program: &'p Program,
    state: &State<'p>,
    thread: usize,
) -> Result<String, AllocError> {
    let accesses = footprint(alloc, program, state, thread)?;
    let mut out = String::new(alloc);
    for access in accesses.as_slice() {
        let kind = if access.written { "w" } else { "r" };
        let at = access.location;
        write!(out, "{kind}{}[{}] ", at.global, at.index)?;
    }
    Ok(out)
}

/// The first race of the next steps; empty where there is none.
fn shown_race<'p>(
    alloc: Global,
    program: &'p Program,
    state: &State<'p>,
) -> Result<String, AllocError> {
    let Some(race) = races(alloc, program, state)? else {
        return Ok(String::new(alloc));
    };
    let at = race.location;
    format!(in alloc;
        "{} and {} at {}[{}]",
        race.first, race.second, at.global, at.index
    )
}

/// What a row asks for, of the state after these turns.
fn shown(
    alloc: Global,
    program: &Program,
    turns: &[Turn],
    thread: &[usize],
) -> Result<String, AllocError> {
    let mut state = start(alloc, program)?;
    take(alloc, program, &mut state, turns)?;
    match thread.first() {
        Some(thread) => shown_accesses(alloc, program, &state, *thread),
        None => shown_race(alloc, program, &state),
    }
}

fn is_shown(alloc: Global, row: &Row) -> Result<bool, Fail> {
    let accepted = accept(alloc, row.0.as_bytes())?;
    let Some(turns) = listed(alloc, row.1)? else {
        return Ok(false);
    };
    let shown = shown(alloc, &accepted.program, turns.as_slice(), row.2)?;
    Ok(shown.as_str() == row.3)
}

#[test]
fn tells_what_is_touched_and_the_first_race(rt: HostRuntime) -> Result<(), Fail> {
    for row in rows() {
        if !is_shown(rt.alloc(), row)? {
            rt.panic(row.0);
        }
    }
    Ok(())
}
