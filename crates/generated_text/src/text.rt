//! The C text of a generated program.

ghost use Rattle.std.specs.Prelude.{◌≡◌, ◌++◌, OnOk, IfOk};
ghost use Rattle.std.specs.List.{flat_map};
ghost use Rattle.generated_text.specs.Draws.{lines_of};
ghost use Rattle.generated_text.specs.Text as spec;

use crate::draws::{Draws, Kind, Letter, Line};
use hls_io::{Bytes, put_dec};
use std::alloc::{AllocError, Global};

/// The byte of a variable's name.
fn byte_of(letter: Letter) -> u8
    ensures { result ≡ spec.byte_of letter }
{
    match letter {
        Letter::A => b'a',
        Letter::B => b'b',
        Letter::C => b'c',
        Letter::D => b'd',
    }
}

/// Appends an assignment of an operator's value.
fn put_assigned(out: &mut Bytes, x: u8, y: u8, operator: &[u8], z: u8) -> Result<(), AllocError>
    ensures { OnOk result (out.new ≡ out.old ++ spec.assigned x y operator.now z) }
{
    out.push(x)?;
    out.put(b" = ")?;
    out.push(y)?;
    out.put(operator)?;
    out.push(z)?;
    out.put(b";")
}

/// Appends an assignment of a quotient, whose divisor is odd.
fn put_quotient(out: &mut Bytes, x: u8, y: u8, z: u8) -> Result<(), AllocError>
    ensures { OnOk result (out.new ≡ out.old ++ spec.quotient x y z) }
{
    out.push(x)?;
    out.put(b" = ")?;
    out.push(y)?;
    out.put(b" / (")?;
    out.push(z)?;
    out.put(b" | 1);")
}

/// Appends an `if` with one assignment.
fn put_raise(out: &mut Bytes, x: u8, y: u8, z: u8) -> Result<(), AllocError>
    ensures { OnOk result (out.new ≡ out.old ++ spec.raised x y z) }
{
    out.put(b"if (")?;
    out.push(y)?;
    out.put(b" < ")?;
    out.push(z)?;
    out.put(b") { ")?;
    out.push(x)?;
    out.put(b" = ")?;
    out.push(x)?;
    out.put(b" + 1; }")
}

/// Appends what stands around one variable.
fn put_around(out: &mut Bytes, before: &[u8], x: u8, behind: &[u8]) -> Result<(), AllocError>
    ensures { OnOk result (out.new ≡ out.old ++ spec.around before.now x behind.now) }
{
    out.put(before)?;
    out.push(x)?;
    out.put(behind)
}

/// Appends the statement of a line.
fn put_statement(out: &mut Bytes, kind: Kind, x: u8, y: u8, z: u8) -> Result<(), AllocError>
    ensures { OnOk result (out.new ≡ out.old ++ spec.statement_text kind x y z) }
{
    match kind {
        Kind::Sum => put_assigned(out, x, y, b" + ", z),
        Kind::Difference => put_assigned(out, x, y, b" - ", z),
        Kind::Product => put_assigned(out, x, y, b" * ", z),
        Kind::ExclusiveOr => put_assigned(out, x, y, b" ^ ", z),
        Kind::Quotient => put_quotient(out, x, y, z),
        Kind::Raise => put_raise(out, x, y, z),
        Kind::Publish => put_around(out, b"g[id] = ", x, b";"),
        Kind::Add => put_around(
            out,
            b"pthread_mutex_lock(&m); s += ",
            x,
            b"; pthread_mutex_unlock(&m);",
        ),
    }
}

/// Appends a line.
fn put_line(out: &mut Bytes, line: Line) -> Result<(), AllocError>
    ensures { OnOk result (out.new ≡ out.old ++ spec.line_text line) }
{
    out.put(b"  ")?;
    put_statement(
        out,
        line.kind,
        byte_of(line.target),
        byte_of(line.left),
        byte_of(line.right),
    )?;
    out.put(b"\n")
}

/// Appends so many lines, drawn from a seed.
fn put_lines(out: &mut Bytes, seed: u32, size: u32) -> Result<(), AllocError>
    ensures { OnOk result (out.new ≡ out.old ++ flat_map spec.line_text (lines_of seed size)) }
{
    let mut draws = Draws::new(seed);
    for drawn in 0..size {
        put_line(out, draws.line())?;
    }
    Ok(())
}

/// Appends the number of threads between two texts.
fn put_sized(out: &mut Bytes, before: &[u8], threads: u32, behind: &[u8]) -> Result<(), AllocError>
    ensures { OnOk result (out.new ≡ out.old ++ spec.sized before.now threads behind.now) }
{
    out.put(before)?;
    put_dec(out, threads as i128)?;
    out.put(behind)
}

/// Appends what stands before the drawn lines.
fn put_head(out: &mut Bytes, threads: u32) -> Result<(), AllocError>
    ensures { OnOk result (out.new ≡ out.old ++ spec.head threads) }
{
    put_sized(
        out,
        b"#include <stdio.h>\n#include <pthread.h>\npthread_t t[",
        threads,
        b"];\n",
    )?;
    put_sized(
        out,
        b"pthread_mutex_t m;\nunsigned s;\nunsigned g[",
        threads,
        b"];\n",
    )?;
    out.put(
        b"void *worker(void *arg) {\n  long id = (long)arg;\n  unsigned a = (unsigned)id + 1, b = 2, c = 3, d = 4;\n",
    )
}

/// Appends main's loops over the threads.
fn put_loops(out: &mut Bytes, threads: u32) -> Result<(), AllocError>
    ensures { OnOk result (out.new ≡ out.old ++ spec.loops threads) }
{
    put_sized(
        out,
        b"  for (i = 0; i < ",
        threads,
        b"; i++) {\n    pthread_create(&t[i], NULL, worker, (void *)(long)i);\n  }\n",
    )?;
    put_sized(
        out,
        b"  for (i = 0; i < ",
        threads,
        b"; i++) {\n    pthread_join(t[i], NULL);\n  }\n",
    )?;
    put_sized(
        out,
        b"  for (i = 0; i < ",
        threads,
        b"; i++) {\n    printf(\"%u\\n\", g[i]);\n  }\n",
    )
}

/// Appends main.
fn put_main(out: &mut Bytes, threads: u32) -> Result<(), AllocError>
    ensures { OnOk result (out.new ≡ out.old ++ spec.main_text threads) }
{
    out.put(b"int main(void) {\n  int i;\n  pthread_mutex_init(&m, NULL);\n")?;
    put_loops(out, threads)?;
    out.put(b"  printf(\"%u\\n\", s);\n  pthread_mutex_destroy(&m);\n  return 0;\n}\n")
}

/// The text of a program of so many threads beside main, each of which works through the same `size` lines, drawn from
/// the seed. A program that the compiler takes has at most 63 such threads.
pub fn program_text(alloc: Global, seed: u32, threads: u32, size: u32) -> Result<Bytes, AllocError>
    ensures { IfOk result (λ text. text ≡ spec.text_of threads (lines_of seed size)) }
{
    let mut text = Bytes::new(alloc);
    put_head(&mut text, threads)?;
    put_lines(&mut text, seed, size)?;
    text.put(
        b"  g[id] = a ^ b ^ c ^ d;\n  pthread_mutex_lock(&m);\n  s += g[id];\n  pthread_mutex_unlock(&m);\n  return NULL;\n}\n",
    )?;
    put_main(&mut text, threads)?;
    Ok(text)
}
