//! What is wrong with a source.

use cash_lexer::LexFault;
use cash_names::NameFault;
use cash_parser::ParseFault;
use type_check::TypeFault;

/// What is wrong with a source: the first stage that gives nothing, in this order.
#[derive(Debug, Drop)]
pub enum SourceFault {
    /// It has this number of bytes, more than 65,536.
    TooLong { bytes: u32 },
    /// It isn't UTF-8; its longest valid prefix has this number of bytes.
    NotUtf8 { at: u32 },
    /// It has no tokens. The fault is never want of memory.
    Lex(LexFault),
    /// Its tokens give no tree. The fault is never want of memory.
    Parse(ParseFault),
    /// A pragma or a name of its tree is refused. The fault is never want of memory.
    Name(NameFault),
    /// A node of its named tree has no type. The fault is never want of memory.
    Typing(TypeFault),
    /// Memory ran out.
    Memory,
}
