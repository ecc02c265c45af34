//! Comments (JSON5, 7).
ghost use Rattle.std.specs.Prelude.{◌+◌, IsCharBoundary, IfOk, IfErr};
ghost use Rattle.jsonc_text.specs.string.Between.{NoneFrom};
ghost use Rattle.jsonc_text.specs.Chars.{Steps};
ghost use Rattle.jsonc_text.specs.Gaps.{IsComment};
ghost use Rattle.jsonc_scan.specs.Reads.{IsReadAnyhow};
ghost use Rattle.jsonc_scan.specs.Refusals.{IsTextFault, IsFaultOfComment};

use crate::faults::fault;
use crate::lexeme::{Lexeme, Read};
use jsonc_text::chars::has_byte;
use jsonc_text::comment::block_close;
use jsonc_text::errors::{ParseError, ParseErrorKind};
use jsonc_text::string::stops::stop_place;

/// The comment at a place, where a `/` stands.
pub(crate) fn read_comment<'a>(text: &'a str, start: usize) -> Result<Read<'a>, ParseError>
    requires boundary { IsCharBoundary text.now start }
    requires slash { Steps text.now start 0x2F (start + 1) }
    ensures found { IfOk result (IsReadAnyhow text.now start) }
    ensures none { IfErr result (λ _. NoneFrom IsComment text.now start) }
    ensures fault { IfErr result (IsTextFault text.now) }
    ensures error { IfErr result (IsFaultOfComment text.now start) }
{
    if has_byte(text, start + 1, b'/') {
        let end = stop_place(text, start + 2, b'\n', b'\r');
        let lexeme = Lexeme::CommentLine(&text[start + 2..end]);
        return Ok(Read { lexeme, end });
    }
    if !has_byte(text, start + 1, b'*') {
        return Err(fault(text, start, start + 1, ParseErrorKind::UnexpectedToken));
    }
    let Some(close) = block_close(text, start + 2) else {
        let kind = ParseErrorKind::UnterminatedCommentBlock;
        return Err(fault(text, start, text.len(), kind));
    };
    let lexeme = Lexeme::CommentBlock(&text[start + 2..close]);
    Ok(Read {
        lexeme,
        end: close + 2,
    })
}
