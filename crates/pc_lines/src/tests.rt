//! Tables of lines, words, decimals and escapes, with their edges.

use super::*;
use std::test::Fail;

const MOST: u64 = u64::MAX;

const LINES: [(&[u8], &[&[u8]]); 8] = [
    (b"", &[]),
    (b"\n", &[b""]),
    (b"a", &[b"a"]),
    (b"a\n", &[b"a"]),
    (b"a\nb", &[b"a", b"b"]),
    (b"\n\n", &[b"", b""]),
    (b"a\n\nb c\r\n", &[b"a", b"", b"b c\r"]),
    (b"\na", &[b"", b"a"]),
];

#[test]
fn cuts_lines(rt: HostRuntime) -> Result<(), Fail> {
    for (text, want) in LINES {
        let got: Vec<&[u8]> = lines(text).collect(rt.alloc())?;
        assert_eq!(rt; got.as_slice(), want, "at {text:?}");
    }
    Ok(())
}

const WORDS: [(&[u8], &[&[u8]]); 7] = [
    (b"", &[]),
    (b"   ", &[]),
    (b"a", &[b"a"]),
    (b" a ", &[b"a"]),
    (b"a b", &[b"a", b"b"]),
    (b"take  1   ", &[b"take", b"1"]),
    (b"a\tb \r", &[b"a\tb", b"\r"]),
];

#[test]
fn cuts_words(rt: HostRuntime) -> Result<(), Fail> {
    for (line, want) in WORDS {
        let got: Vec<&[u8]> = words(line).collect(rt.alloc())?;
        assert_eq!(rt; got.as_slice(), want, "at {line:?}");
    }
    Ok(())
}

const NUMBERS: [(u64, &[u8]); 8] = [
    (0, b"0"),
    (1, b"1"),
    (9, b"9"),
    (10, b"10"),
    (109, b"109"),
    (9_999_999_999, b"9999999999"),
    (10_000_000_000_000_000_000, b"10000000000000000000"),
    (MOST, b"18446744073709551615"),
];

#[test]
fn numbers_both_ways(rt: HostRuntime) -> Result<(), Fail> {
    for (n, word) in NUMBERS {
        let mut out = [b'n'].to_vec(rt.alloc())?;
        put_decimal(&mut out, n)?;
        assert_eq!(rt; out.first(), Some(&b'n'), "at {n}");
        assert_eq!(rt; out.get(1..), Some(word), "at {n}");
        assert_eq!(rt; decimal(word), Ok(n), "at {n}");
    }
    Ok(())
}

const NO_NUMBERS: [&[u8]; 12] = [
    b"",
    b"00",
    b"01",
    b"+1",
    b"-1",
    b"1a",
    b"a1",
    b"1 ",
    b"1_0",
    b"18446744073709551616",
    b"18446744073709551620",
    b"100000000000000000000",
];

#[test]
fn words_without_a_number(rt: HostRuntime) {
    for word in NO_NUMBERS {
        assert_eq!(rt; decimal(word), Err(NotDecimal), "at {word:?}");
    }
}

const ESCAPES: [(&[u8], &[u8]); 9] = [
    (b"", b""),
    (b"bAACAg==", b"bAACAg=="),
    (b"!~", b"!~"),
    (b" ", b"%20"),
    (b"%", b"%25"),
    (b"a%b", b"a%25b"),
    (b"\x00\x1f\x7f", b"%00%1f%7f"),
    (b"\n\xff\xc3\xa9", b"%0a%ff%c3%a9"),
    (b"%25", b"%2525"),
];

#[test]
fn escapes_both_ways(rt: HostRuntime) -> Result<(), Fail> {
    for (bytes, text) in ESCAPES {
        let mut out = Vec::new(rt.alloc());
        put_escaped(&mut out, bytes)?;
        assert_eq!(rt; out.as_slice(), text);
        assert_eq!(rt; unescape(rt.alloc(), text)?.as_slice(), bytes);
    }
    Ok(())
}

const NO_ESCAPES: [&[u8]; 10] = [
    b" ", b"a b", b"\x7f", b"\xff", b"%", b"%2", b"%41", b"%0A", b"%g0", b"%%20",
];

#[test]
fn words_without_bytes(rt: HostRuntime) {
    for word in NO_ESCAPES {
        let fault = unescape(rt.alloc(), word).err();
        assert_eq!(rt; fault, Some(UnescapeFault::Bad), "at {word:?}");
    }
}
