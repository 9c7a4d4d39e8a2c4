//! A source read to its end, up to a limit.

ghost use Rattle.gl_base.specs.Input.{HasInputCause, ReadsAll};

use crate::row::Row;
use crate::source::{ReadAnswer, Source};
use std::alloc::Global;

/// What reading a source to its end came to.
#[derive(Debug, Drop)]
pub enum Input {
    /// All that was left.
    Whole(Row<u8>),
    /// More bytes than the limit came.
    Longer,
    /// A fault, which the source has counted.
    Failed,
    NoMemory,
}

/// How many bytes one read asks for.
const PIECE: usize = 65536;

/// Takes what is left of the source. `Whole` gives all of it; `Longer` is the answer as soon as the bytes read pass
/// `limit`, and at no other time. Each answer but `Whole` may have taken a part from the front.
pub fn read_all<R: Source>(alloc: Global, source: &mut R, limit: usize) -> Input
    ensures bytes { ReadsAll limit (R.left source.old) (R.left source.new) result }
    ensures cause { HasInputCause (R.health source.old) (R.health source.new) result }
{
    let mut all = Row::new(alloc);
    let mut piece = [0u8; PIECE];
    loop {
        match source.read(&mut piece) {
            ReadAnswer::Took(n) => {
                if n > limit - all.len() {
                    return Input::Longer;
                }
                if all.extend(&piece[..n]).is_err() {
                    return Input::NoMemory;
                }
            }
            ReadAnswer::End => return Input::Whole(all),
            ReadAnswer::Failed => return Input::Failed,
        }
    }
}
