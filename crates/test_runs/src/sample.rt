// The small languages that show how formats are read.
use std::alloc::{AllocError, Global};
use std::str;
use test_forms::{
    ExprKind, ParseError, Place, Sign, Token, TokenKind, parse, read_words, write_words,
};

/// Words that are read, as they are written.
pub(crate) fn words_again(alloc: Global) -> Result<String, AllocError> {
    let Ok(words) = read_words(alloc, b"\"a b\",c") else {
        return String::from_str(alloc, "no words");
    };
    let written = write_words(alloc, &words)?;
    String::from_str(alloc, str::from_utf8(&written).unwrap_or("no text"))
}

/// Where 20,000 minuses are too deep, and the number that the token 7 is read as.
pub(crate) fn depth_and_number(alloc: Global) -> Result<(usize, u32), AllocError> {
    let place = Place { start: 0, end: 1 };
    let mut tokens = Vec::new(alloc);
    for _ in 0..20_000 {
        let kind = TokenKind::Sign { sign: Sign::Minus };
        tokens.push(Token { place, kind })?;
    }
    let depth = match parse(alloc, &tokens) {
        Err(ParseError::TooDeep { index }) => index,
        _ => 0,
    };
    tokens.clear();
    let kind = TokenKind::Number { value: 7 };
    tokens.push(Token { place, kind })?;
    let number = match parse(alloc, &tokens) {
        Ok(sum) => match sum.kind {
            ExprKind::Number { value } => value,
            _ => 0,
        },
        Err(_) => 0,
    };
    Ok((depth, number))
}
