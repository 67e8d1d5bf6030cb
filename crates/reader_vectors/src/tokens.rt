//! Texts, and the kinds, sizes and lines of their tokens.
use ir_core::OutOfMemory;
use ir_lex::{TokenKind, lex};
use std::alloc::Global;
use std::process::Abort;
use std::test::Fail;

/// A text, and the letter, size and line of each of its tokens.
const TEXTS: [(&str, &str); 36] = [
    ("", ""),
    ("; nothing", ""),
    ("  define i32 @f(", "w6@1 w3@1 g2@1 m1@1 "),
    ("a:\r\n\tb ; c:\n%1=-1", ":2@1 w1@2 l2@3 m1@3 n2@3 "),
    ("-12 -12a - %-12 -a:", "n3@1 w4@1 w1@1 l2@1 n2@1 :3@1 "),
    ("12: %12 12a", ":3@1 l3@1 n2@1 w1@1 "),
    ("-12:", "n3@1 b1@1 "),
    ("x $.y_-1 @ z", "w1@1 w6@1 b1@1 "),
    ("\n\n%\"", "b1@3 "),
    ("x ~", "w1@1 b1@1 "),
    ("1e5 1. -1.5e+7 1.5e-3x", "n1@1 w2@1 f2@1 f7@1 f6@1 w1@1 "),
    ("-1.5e7 -1.5e -1.5e7x", "f6@1 w5@1 w7@1 "),
    ("%-1.5e7 %-1.5 @-x1", "l6@1 n1@1 l2@1 f3@1 g4@1 "),
    ("0x 0x1F 0xK1F 0x1g", "n1@1 w1@1 f4@1 f5@1 f3@1 w1@1 "),
    ("0xKg -0x1", "n1@1 w3@1 w4@1 "),
    ("1: \"a b\": -1.5:", ":2@1 :6@1 f4@1 b1@1 "),
    ("\"a\" \"b", "t3@1 b1@1 "),
    ("c\"ab\" c\"a", "c5@1 w1@1 b1@1 "),
    ("c\"a\":", "c4@1 b1@1 "),
    ("%\"a b\" @\"\" #12", "l6@1 g3@1 #3@1 "),
    ("x !\"s\" !a !1 !{", "w1@1 !4@1 !2@1 !2@1 !2@1 "),
    ("x #", "w1@1 b1@1 "),
    ("x ! y", "w1@1 b1@1 "),
    ("! foo", "b1@1 "),
    ("\"a\nb\" x\n%\"\n\n\" y", "t5@1 w1@2 l5@3 w1@5 "),
    ("!foo = !{}", "P10@1 "),
    ("!\"a\nb\" x", "!6@1 w1@2 "),
    ("  target triple = \"t\" \t\r\nx", "P19@1 w1@2 "),
    ("define\ntargets x ; y\nz", "w6@1 P13@2 w1@3 "),
    ("$a = comdat any\r\n", "P15@1 "),
    (";c\n ; d\n  $x", "P2@3 "),
    ("x $a", "w1@1 w2@1 "),
    (
        "source_filename=\"a\"\nattributes #0\n@llvm.used",
        "P19@1 P13@2 P10@3 ",
    ),
    (
        "{\ntarget\n@llvm.x }\n@llvm.y = 1",
        "m1@1 w6@2 g7@3 m1@3 P11@4 ",
    ),
    ("} } {\n!0\n} !1", "m1@1 m1@1 m1@1 !2@2 m1@3 !2@3 "),
    ("x !{\n!0 }\n!1", "w1@1 !2@1 !2@2 m1@2 P2@3 "),
];

fn letter(kind: TokenKind) -> char {
    match kind {
        TokenKind::Word => 'w',
        TokenKind::Local => 'l',
        TokenKind::Global => 'g',
        TokenKind::Label => ':',
        TokenKind::Number => 'n',
        TokenKind::Float => 'f',
        TokenKind::Text => 't',
        TokenKind::CText => 'c',
        TokenKind::Group => '#',
        TokenKind::Meta => '!',
        TokenKind::Mark(_) => 'm',
        TokenKind::Passive => 'P',
        TokenKind::Bad => 'b',
        TokenKind::Past => 'p',
    }
}

/// The letter, size and line of each of the text's tokens.
fn tokens_of(alloc: Global, text: &str) -> Result<String, OutOfMemory> {
    let mut found = String::new(alloc);
    for token in lex(alloc, text.as_bytes())?.as_slice() {
        let size = token.end.saturating_sub(token.start);
        write!(found, "{}{}@{} ", letter(token.kind), size, token.line)?;
    }
    Ok(found)
}

#[test]
fn kinds_sizes_and_lines(rt: HostRuntime) -> Result<(), Fail> {
    for (text, want) in TEXTS {
        assert!(rt; tokens_of(rt.alloc(), text)?.as_str() == want, "at {text}");
    }
    Ok(())
}
