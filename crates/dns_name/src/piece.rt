//! The pieces of a name as they stand in octets.

ghost use Rattle.std.specs.Prelude.{◌≡◌, ◌≤◌, ◌<◌, ◌^◌, length};
ghost use Rattle.dns_name.specs.Names.{name_piece, name_piece_of, jump, near};

use crate::error::{FormReason, ParseError};

/// What stands at a place of a name (RFC 1035, section 4.1.4).
#[derive(Clone, Copy)]
pub enum Piece {
    /// The root's octet.
    End,
    /// A label of that many octets, after its head.
    Text(usize),
    /// A pointer to a place.
    Jump(usize),
}

/// How a name is read.
#[derive(Clone, Copy)]
pub struct NameBounds {
    /// The place before which a name lies up to its first pointer.
    pub limit: usize,
    /// Whether pointers are followed; a name without them is uncompressed.
    pub pointers: bool,
}

/// The piece at a place, after that many pointers.
#[tactic(auto, unfolding(crate::specs::Names::name_piece))]
pub fn piece_at(
    message: &[u8],
    reach: NameBounds,
    hops: usize,
    at: usize,
) -> Result<Piece, ParseError>
    requires limited { reach.limit ≤ length message.now }
    requires within { at ≤ length (near reach.limit hops message.now) }
    ensures { result ≡ name_piece reach hops message.now at }
{
    let seen = if hops == 0 {
        &message[..reach.limit]
    } else {
        message
    };
    piece_in(&seen[at..], reach.pointers, at)
}

/// The piece that octets at a place begin with.
fn piece_in(octets: &[u8], pointers: bool, at: usize) -> Result<Piece, ParseError>
    ensures { result ≡ name_piece_of pointers at octets.now }
{
    let [head, more @ ..] = octets else {
        return Err(ParseError::ShortInput);
    };
    let head = *head as usize;
    if head == 0 {
        Ok(Piece::End)
    } else if head < 64 {
        if more.len() < head {
            Err(ParseError::ShortInput)
        } else {
            Ok(Piece::Text(head))
        }
    } else if head < 192 {
        Err(ParseError::Form(FormReason::Label))
    } else if pointers {
        jump_to(at, head, more)
    } else {
        Err(ParseError::Form(FormReason::Label))
    }
}

/// The pointer with this head.
fn jump_to(at: usize, head: usize, more: &[u8]) -> Result<Piece, ParseError>
    requires low { 192 ≤ head }
    requires high { head < 2 ^ 8 }
    ensures { result ≡ jump at head more.now }
{
    let [low, ..] = more else {
        return Err(ParseError::ShortInput);
    };
    let target = 256 * (head - 192) + (*low as usize);
    if target < at {
        Ok(Piece::Jump(target))
    } else {
        Err(ParseError::Form(FormReason::Pointer))
    }
}
