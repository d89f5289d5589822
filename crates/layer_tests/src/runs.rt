// What one run of a small program shows of it.

use c_profile::accept;
use run_check::run::{Reason, RunVerdict, check_run};
use std::alloc::{AllocError, Global};
use std::process::Abort;
use std::test::Fail;

/// Three turns of a loop: 16 steps.
const COUNTING: &str =
    "int main(void){int i; for (i = 1; i < 4; i++) printf(\"%d\\n\", i); return 0;}";

/// Two threads write and read a global in turn, parted by a barrier.
const PHASES: &str =
    "pthread_t t[2]; pthread_barrier_t b; int x; void *w(void *arg){long id = (long)arg; int k; for (k = 1; k < 4; k++){if (id == 0) x = k; \
    pthread_barrier_wait(&b); if (id == 1) printf(\"%d\\n\", x); pthread_barrier_wait(&b);} return NULL;} int main(void){pthread_barrier_init(&b, NULL, 2); \
    int i; for (i = 0; i < 2; i++) pthread_create(&t[i], NULL, w, (void *)(long)i); for (i = 0; i < 2; i++) pthread_join(t[i], NULL); return 0;}";

/// Two threads add to one global, without a mutex.
const ADDING: &str =
    "pthread_t t[2]; int sum; void *w(void *arg){sum = sum + 1; return NULL;} int main(void){int i; for (i = 0; i < 2; i++) pthread_create(&t[i], NULL, w, \
    (void *)(long)i); for (i = 0; i < 2; i++) pthread_join(t[i], NULL); printf(\"%d\\n\", sum); return 0;}";

/// A thread waits at a barrier at which nobody else comes.
const WAITING: &str =
    "pthread_t t; pthread_barrier_t b; void *w(void *arg){pthread_barrier_wait(&b); return NULL;} int main(void){pthread_barrier_init(&b, NULL, 2); \
    pthread_create(&t, NULL, w, NULL); pthread_join(t, NULL); return 0;}";

/// Calls that tell their order, as operands of `&&`, `||`, `?:` and `!`, and what is switched: 44 steps.
const ORDERED: &str =
    "int n; int t(int x){n = n * 10 + x; return x;} int main(void){int a = t(1) && t(0) && t(5) || t(2); int b = t(0) ? t(7) : t(3) ? t(4) : t(6); \
    int c = !(t(0) || t(8)) + 1; switch (t(9)) { case 9: n++; } printf(\"%d %d %d %d\\n\", n, a, b, c); return 0;}";

/// A text, the most steps of its run, and how what it shows begins.
type Row = (&'static str, u32, &'static str);

const ROWS: [Row; 9] = [
    ("int main(void){return 0;}", 9, "good, 1 steps"),
    (COUNTING, 16, "good, 16 steps"),
    (COUNTING, 15, "unknown, 15 steps: too few"),
    (PHASES, 1000, "good, "),
    (ADDING, 1000, "race of 1 and 2 at 0[0]"),
    (WAITING, 1000, "unknown, 7 steps: deadlock"),
    (
        "int main(void){int a = 0; printf(\"%d\\n\", 1 / a); return 0;}",
        9,
        "undefined at 26",
    ),
    (ORDERED, 100, "good, 44 steps"),
    // the first index is outside of its dimension, before the second is evaluated
    (
        "int g[2][3]; int main(void){int z = 0; return g[2][1 / z];}",
        9,
        "undefined at 39",
    ),
];

fn rows() -> &'static [Row] {
    &ROWS
}

fn shown_reason(reason: Reason) -> &'static str {
    match reason {
        Reason::TooFewSteps => "too few",
        Reason::Deadlock => "deadlock",
        _ => "not ordered",
    }
}

fn shown(alloc: Global, verdict: &RunVerdict) -> Result<String, AllocError> {
    match verdict {
        RunVerdict::Good { steps, .. } => format!(in alloc; "good, {steps} steps"),
        RunVerdict::Race(found) => {
            let at = found.location;
            format!(in alloc;
                "race of {} and {} at {}[{}]",
                found.first, found.second, at.global, at.index
            )
        }
        RunVerdict::Undefined { offset, .. } => format!(in alloc; "undefined at {offset}"),
        RunVerdict::Unknown { steps, reason } => {
            format!(in alloc; "unknown, {steps} steps: {}", shown_reason(*reason))
        }
    }
}

fn is_shown(alloc: Global, row: &Row) -> Result<bool, Fail> {
    let accepted = accept(alloc, row.0.as_bytes())?;
    let verdict = check_run(alloc, &accepted.program, row.1)?;
    let shown = shown(alloc, &verdict)?;
    Ok(shown.starts_with(row.2))
}

#[test]
fn tells_what_a_run_shows(rt: HostRuntime) -> Result<(), Fail> {
    for row in rows() {
        if !is_shown(rt.alloc(), row)? {
            rt.panic(row.2);
        }
    }
    Ok(())
}
