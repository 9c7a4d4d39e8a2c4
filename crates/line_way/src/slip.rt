//! Whether the next character makes a slip behind what was gathered, looked at before it is taken.

ghost use Rattle.std.specs.Prelude.{◌≡◌, ℕ, ◌∷◌, [], ◌++◌, ◌+◌, ◌≤◌, ◌==◌, ◌&&◌, true, length, map, not, slice_index};
ghost use Rattle.arrayvec.specs.ArrayVec.{array_vec_len};
ghost use Rattle.line_end.specs.Frames.{is_frame};
ghost use Rattle.line_way.specs.Kept.{IsSlipOf, are_front, ends_frame, stands_at, is_complete, is_whole, makes_slip};
ghost use Rattle.line_way.specs.Slip.{frame_number};
ghost use Rattle.line_way.specs.Ways.{bytes_of, characters_of, origin_of};

use crate::character::{Character, Source};
use block_codec::{HEADER_LENGTH, MOST_COUNTED, block_of};
use line_end::Chars;

/// The characters of a block that arrives and is no frame of the other end, unchanged and whole.
#[derive(Drop, Debug)]
pub struct Slip {
    /// The number of the frame that the first of them comes from; `None` where it is a control character or noise.
    pub frame: Option<u64>,
    /// All of them, in order.
    pub characters: Chars,
}

/// The slip that the next character makes behind those that were gathered.
pub(crate) fn slip_of(gathered: &[Character], next: Character) -> Option<Slip>
    ensures { IsSlipOf (makes_slip gathered.now (next ∷ [])) (gathered.now ++ next ∷ []) result }
{
    let first = *gathered.first()?;
    if !is_complete(first.byte, gathered.len() + 1) {
        return None;
    }
    let mut characters = bytes_of(gathered);
    characters.push(next.byte);
    if is_block(characters.as_slice()) && !is_whole(gathered, next) {
        Some(Slip {
            frame: frame_number(first.source),
            characters,
        })
    } else {
        None
    }
}

// Whether so many characters are all that a length byte announces.
fn is_complete(first: u8, count: usize) -> bool
    ensures { result ≡ is_complete first count }
{
    let counted = first as usize;
    (HEADER_LENGTH..=MOST_COUNTED).contains(&counted) && count == counted + 3
}

fn bytes_of(characters: &[Character]) -> Chars
    requires { length characters.now ≤ 256 }
    ensures bytes { result.items ≡ bytes_of (characters_of characters.now) }
    ensures room { array_vec_len result ≡ length characters.now }
{
    let mut bytes = Chars::new();
    for character in characters {
        bytes.push(character.byte);
    }
    bytes
}

// Whether they are a block's frame. As many of them came as were announced.
fn is_block(characters: &[u8]) -> bool
    requires { is_complete (slice_index characters.now 0) (length characters.now) ≡ true }
    ensures { result ≡ is_frame characters.now }
{
    match block_of(characters) {
        Ok(_) => true,
        Err(_) => false,
    }
}

// Whether these and one behind them are all the characters of a frame, unchanged and in order.
fn is_whole(gathered: &[Character], next: Character) -> bool
    ensures { result ≡ is_whole gathered.now next }
{
    let Source::Frame(at) = next.source else {
        return false;
    };
    at.is_last
        && at.place == gathered.len()
        && next.byte == at.written
        && are_front(gathered, at.frame)
}

// Whether these are the first characters of that frame, unchanged and in order, and not its last one.
fn are_front(characters: &[Character], frame: u64) -> bool
    ensures { result ≡ are_front frame 0 characters.now }
{
    let mut place = 0;
    'places: while place < characters.len() {
        if !stands_at(characters[place], frame, place) {
            return false;
        }
        place += 1;
    }
    true
}

// Whether it stands at that place of that frame as it was written, and isn't its last one.
fn stands_at(character: Character, frame: u64, place: usize) -> bool
    ensures { result ≡ stands_at frame place character.byte character.source }
{
    match character.source {
        Source::Frame(at) => {
            at.frame == frame && at.place == place && character.byte == at.written && !at.is_last
        }
        Source::Control | Source::Noise => false,
    }
}

fn frame_number(source: Source) -> Option<u64>
    ensures { result ≡ frame_number (origin_of source) }
{
    match source {
        Source::Frame(at) => Some(at.frame),
        Source::Control | Source::Noise => None,
    }
}
