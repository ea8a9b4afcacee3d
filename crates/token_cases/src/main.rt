//! Reads cases, one on each line, and prints the tokens of each or its fault, with their spans.
//!
//! - `all|TEXT`: all tokens of a text.
//! - `next|PLACE|TEXT`: the first token from a place on.
//! - `long|FRONT|PIECE`: how many tokens there are in a text of 65,536 bytes, which is `FRONT` and then `PIECE` as often
//!   as it has room. The pieces are those that could make a lexer look at the same bytes over and over; all of them take
//!   a fraction of a second.
//!
//! In a text `%n`, `%r`, `%t`, `%0`, `%v`, `%d` and `%%` stand for a line feed, a carriage return, a tab, the bytes 0, 11
//! and 127, and `%` itself.
#![tactic(auto)]

use anyhow::Result;
use cash_lexer::{LexFault, next_token, tokens};
use cash_tree::{Span, Token};
use std::alloc::Global;

/// The length of a long text, and the longest that is read.
const LONGEST: usize = 65_536;

/// A text with its escapes resolved.
fn text_of(alloc: Global, escaped: &str) -> Result<String> {
    let mut text = String::new(alloc);
    let mut is_escaped = false;
    for c in escaped.chars() {
        if is_escaped {
            is_escaped = false;
            text.push(match c {
                'n' => '\n',
                'r' => '\r',
                't' => '\t',
                '0' => '\0',
                'v' => '\x0b',
                'd' => '\x7f',
                other => other,
            })?;
        } else if c == '%' {
            is_escaped = true;
        } else {
            text.push(c)?;
        }
    }
    Ok(text)
}

fn show_token(out: &mut String, token: Token) -> Result<()> {
    let kind = token.kind;
    let from = token.span.from;
    let to = token.span.to;
    write!(out, "{kind:?} {from}-{to}")?;
    Ok(())
}

fn show_fault(out: &mut String, fault: LexFault) -> Result<()> {
    let (name, span) = match fault {
        LexFault::BadCharacter { span } => ("BadCharacter", span),
        LexFault::OpenString { span } => ("OpenString", span),
        LexFault::OpenComment { span } => ("OpenComment", span),
        LexFault::NumberTooWide { span } => ("NumberTooWide", span),
        LexFault::OddHex { span } => ("OddHex", span),
        LexFault::BadDate { span } => ("BadDate", span),
        LexFault::Memory => ("Memory", Span { from: 0, to: 0 }),
    };
    let from = span.from;
    let to = span.to;
    write!(out, "{name} {from}-{to}")?;
    Ok(())
}

fn show_all(out: &mut String, alloc: Global, text: &str) -> Result<()> {
    if text.len() > LONGEST {
        return Ok(());
    }
    match tokens(alloc, text) {
        Ok(tokens) => {
            if tokens.is_empty() {
                out.push_str("no token")?;
            }
            for (i, token) in tokens.iter().enumerate() {
                if i > 0 {
                    out.push_str(", ")?;
                }
                show_token(out, *token)?;
            }
        }
        Err(fault) => show_fault(out, fault)?,
    }
    Ok(())
}

fn show_next(out: &mut String, text: &str, from: usize) -> Result<()> {
    if text.len() > LONGEST || from > text.len() {
        return Ok(());
    }
    match next_token(text, from) {
        Ok(Some(token)) => show_token(out, token)?,
        Ok(None) => out.push_str("no token")?,
        Err(fault) => show_fault(out, fault)?,
    }
    Ok(())
}

/// What stands in front, and then the piece as often as it has room.
fn long_text(alloc: Global, front: &str, piece: &str) -> Result<String> {
    let mut text = String::from_str(alloc, front)?;
    for _ in 0..LONGEST {
        if piece.len() > LONGEST || text.len() > LONGEST - piece.len() {
            break;
        }
        text.push_str(piece)?;
    }
    Ok(text)
}

fn show_count(out: &mut String, alloc: Global, front: &str, piece: &str) -> Result<()> {
    let text = long_text(alloc, front, piece)?;
    let len = text.len();
    if len > LONGEST {
        return Ok(());
    }
    write!(out, "{len} bytes: ")?;
    match tokens(alloc, text.as_str()) {
        Ok(tokens) => {
            let count = tokens.len();
            write!(out, "{count} tokens")?;
        }
        Err(fault) => show_fault(out, fault)?,
    }
    Ok(())
}

/// What is printed of a case.
fn answer(alloc: Global, line: &str) -> Result<String> {
    let mut out = String::new(alloc);
    let Some((what, rest)) = line.split_once('|') else {
        return Ok(out);
    };
    if what == "all" {
        let text = text_of(alloc, rest)?;
        show_all(&mut out, alloc, text.as_str())?;
        return Ok(out);
    }
    let Some((first, second)) = rest.split_once('|') else {
        return Ok(out);
    };
    if what == "next" {
        let text = text_of(alloc, second)?;
        if let Ok(from) = first.parse::<usize>() {
            show_next(&mut out, text.as_str(), from)?;
        }
    } else {
        show_count(&mut out, alloc, first, second)?;
    }
    Ok(out)
}

fn main(rt: HostRuntime) -> Result<()> {
    for line in rt.lines(rt.alloc()) {
        let line = line?;
        let answer = answer(rt.alloc(), line.as_str())?;
        println!(rt; "{answer}")?;
    }
    Ok(())
}
