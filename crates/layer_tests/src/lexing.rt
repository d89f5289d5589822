// One table of texts and their tokens, and the limits at their edges.

use c_lexer::{LexFault, lex};
use c_token::{Constant, ConstantType, Kind, Token};
use std::alloc::{AllocError, Global};
use std::process::Abort;
use std::test::Fail;

fn push_bytes(out: &mut String, bytes: &[u8]) -> Result<(), AllocError> {
    for b in bytes {
        out.push(char::from(*b))?;
    }
    Ok(())
}

fn push_kind(out: &mut String, kind: &Kind) -> Result<(), AllocError> {
    match kind {
        Kind::Keyword(keyword) => write!(out, "[{}]", keyword.spelling()),
        Kind::Name(name) => push_bytes(out, name.as_slice()),
        Kind::Constant(Constant::TooLarge) => out.push_str("too large"),
        Kind::Constant(Constant::Typed(value, of)) => {
            let suffix = match of {
                ConstantType::Int => "",
                ConstantType::Unsigned => "u",
                ConstantType::Long => "l",
                ConstantType::UnsignedLong => "ul",
            };
            write!(out, "{value}{suffix}")
        }
        Kind::StringLiteral(inside) => {
            out.push('"')?;
            push_bytes(out, inside.as_slice())?;
            out.push('"')
        }
        Kind::Punctuator(mark) => out.push_str(mark.spelling()),
        Kind::End => out.push_str("end"),
    }
}

/// The tokens as `offset:token`.
fn shown_tokens(alloc: Global, tokens: &[Token]) -> Result<String, AllocError> {
    let mut out = String::new(alloc);
    for token in tokens {
        write!(out, " {}:", token.offset)?;
        push_kind(&mut out, &token.kind)?;
    }
    Ok(out)
}

fn shown_fault(alloc: Global, fault: &LexFault) -> Result<String, AllocError> {
    match fault {
        LexFault::Bad { offset } => format!(in alloc; "bad {offset}"),
        LexFault::Limit {
            limit,
            count,
            offset,
        } => format!(in alloc; "{limit:?} {count} at {offset}"),
        LexFault::Memory => String::from_str(alloc, "memory"),
    }
}

/// The tokens, or the fault.
fn shown(alloc: Global, text: &[u8]) -> Result<String, AllocError> {
    match lex(alloc, text) {
        Ok(tokens) => shown_tokens(alloc, tokens.as_slice()),
        Err(fault) => shown_fault(alloc, &fault),
    }
}

const ROWS: [(&str, &str); 51] = [
    ("", " 0:end"),
    (
        "int main(void){x = 1;",
        " 0:[int] 4:main 8:( 9:[void] 13:) 14:{ 15:x 17:= 19:1 20:; 21:end",
    ),
    ("a<<=b>>=c", " 0:a 1:<<= 4:b 5:>>= 8:c 9:end"),
    (
        "a+++b---c->d",
        " 0:a 1:++ 3:+ 4:b 5:-- 7:- 8:c 9:- 10:> 11:d 12:end",
    ),
    ("/ /=/*a*//**/x//y", " 0:/ 2:/= 13:x 17:end"),
    ("0 00 017 0x1F 0XfUL", " 0:0 2:0 5:15 9:31 14:15ul 19:end"),
    (
        "2147483647 2147483648",
        " 0:2147483647 11:2147483648l 21:end",
    ),
    (
        "0x7fffffff 0x80000000",
        " 0:2147483647 11:2147483648u 21:end",
    ),
    (
        "0xffffffff 037777777777",
        " 0:4294967295u 11:4294967295u 23:end",
    ),
    (
        "0x100000000 0xffffffffffffffff",
        " 0:4294967296l 12:18446744073709551615ul 30:end",
    ),
    (
        "9223372036854775807 9223372036854775808",
        " 0:9223372036854775807l 20:too large 39:end",
    ),
    (
        "9223372036854775808l 9223372036854775808u",
        " 0:too large 21:9223372036854775808ul 41:end",
    ),
    (
        "18446744073709551615u 18446744073709551616u",
        " 0:18446744073709551615ul 22:too large 43:end",
    ),
    (
        "1u 4294967296U 1l 1LL 01l",
        " 0:1u 3:4294967296ul 15:1l 18:1l 22:1l 25:end",
    ),
    (
        "1ul 1LLU 1uLL 0xFFFFFFFFFFFFFFFFl",
        " 0:1ul 4:1ul 9:1ul 14:18446744073709551615ul 33:end",
    ),
    ("1 08", "bad 2"),
    (" 0x", "bad 1"),
    ("1.5", "bad 0"),
    ("1lL", "bad 0"),
    ("1uu", "bad 0"),
    ("a.", "bad 1"),
    (
        "'a' '\"' '\\n' '\\0' '\\'' '\\\\'",
        " 0:97 4:34 8:10 13:0 18:39 23:92 27:end",
    ),
    ("x'ab'", "bad 1"),
    ("''", "bad 0"),
    ("'\\x'", "bad 0"),
    ("\"\" \"a\\\"b\\n\"", " 0:\"\" 3:\"a\\\"b\\n\" 11:end"),
    ("f(\"a", "bad 2"),
    ("\"a\\\nb\"", "bad 0"),
    ("a /* ", "bad 2"),
    ("/*/", "bad 0"),
    ("a // b\\\nc", "bad 2"),
    ("a /* \\\r\n */", "bad 2"),
    ("a \\\n", "bad 2"),
    ("x\n#define N \\\n7\n", "bad 2"),
    ("'\\\n'", "bad 0"),
    ("a \x0c", "bad 2"),
    ("#include <a.h>\n # include \"b\" // c\nx", " 35:x 36:end"),
    (
        "/* \n */ # /* \n */ define N 0x10\nN n\"N\"",
        " 32:16 34:n 35:\"N\" 38:end",
    ),
    ("#define N 7\r\nN+NN", " 13:7 14:+ 15:NN 17:end"),
    ("#define N 7\n#define N 7\n", "bad 12"),
    ("#define int 7\n", "bad 0"),
    ("#define N 7 8\n", "bad 0"),
    ("#define N 08\n", "bad 0"),
    ("#define N", "bad 0"),
    ("x #define N 7\n", "bad 2"),
    ("#include <a> /* ", "bad 13"),
    ("#define N 7 // c\\\n", "bad 12"),
    (" #\n", "bad 1"),
    ("#define NULL 0\n", "bad 0"),
    ("#define L 99999999999999999999\nL", " 31:too large 32:end"),
    (
        "#define a234567890123456789012345678901234567890123456789012345678901234 1\na234567890123456789012345678901234567890123456789012345678901234",
        "NameLength 64 at 75",
    ),
];

fn rows() -> &'static [(&'static str, &'static str)] {
    &ROWS
}

fn is_shown(alloc: Global, text: &[u8], expected: &str) -> Result<bool, AllocError> {
    let out = shown(alloc, text)?;
    Ok(out.as_str() == expected)
}

#[test]
fn table(rt: HostRuntime) -> Result<(), Fail> {
    for (text, expected) in rows() {
        if !is_shown(rt.alloc(), text.as_bytes(), expected)? {
            rt.panic(*expected);
        }
    }
    Ok(())
}

/// A byte, the most of it that a text may have, how many tokens these are with the end, and the fault of one more.
const EDGES: [(u8, usize, usize, &str); 2] = [
    (b';', 16_384, 16_385, "Tokens 16385 at 16384"),
    (b'a', 63, 2, "NameLength 64 at 0"),
];

/// The limit of tokens at its edge, and that of a name's length.
#[test]
fn limits(rt: HostRuntime) -> Result<(), Fail> {
    for (byte, most, tokens, fault) in &EDGES {
        let text = vec![in rt.alloc(); *byte; 1 + *most]?;
        let within = lex(rt.alloc(), &text[..*most])?.len();
        if within != *tokens || !is_shown(rt.alloc(), &text, fault)? {
            rt.panic(*fault);
        }
    }
    Ok(())
}
