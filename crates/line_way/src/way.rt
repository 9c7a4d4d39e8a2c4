//! One direction of the line, and what the end that it leads to has gathered.

ghost use Rattle.std.specs.Prelude.{◌≡◌, true, [], ◌∷◌, ◌++◌, ◌<◌, ◌≤◌, ◌+◌, ◌^◌, length, map, OnOk, OnErr};
ghost use Rattle.line_way.specs.Kept.{IsSlipAt, IsSlipOf, control, count_after, framed_from, gathered_with_next, makes_slip_in, way_after, with_change, with_noise, with_written, without_next};
ghost use Rattle.line_way.specs.Ways.{characters_of, next_byte};

use crate::character::{Character, FramePlace, Source};
use crate::slip::{Slip, slip_of};
use block_codec::ENQ;
use gl_base::{NoMemory, Row};
use line_end::Phase;
use std::alloc::Global;
use std::collections::VecDeque;
use std::marker::Model;

// The most control characters of one step: at its deadline, at the character, and a first ENQ.
const MOST_CONTROLS: usize = 3;

/// One direction of the line, and what the end that it leads to has gathered of a frame.
#[derive(Drop, Debug)]
pub(crate) struct Way {
    under_way: VecDeque<Character>,
    gathered: Row<Character>,
}

impl Model for Way {
    ghost use Rattle.line_way.specs.Ways.{Way};

    ghost Value = { Way };

    ghost view = { λ inside. record { under_way = inside.under_way.items; gathered = inside.gathered } };
}

impl Way {
    /// Nothing is under way or gathered.
    pub(crate) fn new(alloc: Global) -> Way
        ensures { result ≡ record { under_way = []; gathered = [] } }
    {
        Way {
            under_way: VecDeque::new(alloc),
            gathered: Row::new(alloc),
        }
    }

    /// The next character, where one is on its way.
    pub(crate) fn next(&self) -> Option<u8>
        ensures { result ≡ next_byte (characters_of self.now.under_way) }
    {
        match self.under_way.front() {
            Some(character) => Some(character.byte),
            None => None,
        }
    }

    /// The next character is lost, where one is on its way.
    pub(crate) fn lose(&mut self)
        ensures { self.new ≡ without_next self.old }
    {
        self.under_way.pop_front();
    }

    /// The character at a place becomes this byte, where one is there.
    pub(crate) fn change(&mut self, place: usize, byte: u8)
        ensures { self.new ≡ with_change place byte self.old }
    {
        if let Some(character) = self.under_way.get_mut(place) {
            character.byte = byte;
        }
    }

    /// A character comes in front of the others.
    pub(crate) fn add(&mut self, byte: u8) -> Result<(), NoMemory>
        ensures ok { OnOk result (self.new ≡ with_noise byte self.old) }
        ensures err { OnErr result (self.new ≡ self.old) }
    {
        self.under_way.push_front(Character {
            byte,
            source: Source::Noise,
        })?;
        Ok(())
    }

    /// What is under way is gone.
    pub(crate) fn empty(&mut self)
        ensures { self.new ≡ record self.old { under_way = [] } }
    {
        self.under_way.clear();
    }

    /// What was gathered is gone.
    pub(crate) fn forget(&mut self)
        ensures { self.new ≡ record self.old { gathered = [] } }
    {
        self.gathered.truncate(0);
    }

    /// The end takes the next character, or none, and is in this phase then.
    pub(crate) fn take(&mut self, gives: bool, phase: Phase) -> Result<(), NoMemory>
        ensures { OnOk result (self.new ≡ way_after gives phase self.old) }
    {
        if gives {
            self.gather()?;
        }
        if phase != Phase::Gathering {
            self.gathered.truncate(0);
        }
        Ok(())
    }

    // The end gathers the next character, where there is one.
    fn gather(&mut self) -> Result<(), NoMemory>
        ensures { OnOk result (self.new ≡ way_after true Phase.Gathering self.old) }
    {
        if let Some(character) = self.under_way.pop_front() {
            self.gathered.push(character)?;
        }
        Ok(())
    }

    /// Puts on its way what a step of the other end has written. `count` is the number of its frame.
    pub(crate) fn write(&mut self, count: &mut u64, written: &[u8]) -> Result<(), NoMemory>
        requires { count.old < 2 ^ 62 }
        ensures way { OnOk result (self.new ≡ with_written count.old written.now self.old) }
        ensures count { OnOk result (count.new ≡ count_after count.old written.now) }
        ensures at_most { count.new ≤ count.old + 1 }
    {
        if written.len() <= MOST_CONTROLS {
            return put_controls(&mut self.under_way, written);
        }
        let frame = *count;
        *count += 1;
        if written[0] == ENQ {
            self.under_way.push_back(Character {
                byte: ENQ,
                source: Source::Control,
            })?;
            put_frame(&mut self.under_way, frame, &written[1..])
        } else {
            put_frame(&mut self.under_way, frame, written)
        }
    }

    /// The slip that the next character makes at an end in this phase, where T1 has run out or not.
    pub(crate) fn slip(&self, phase: Phase, is_late: bool) -> Option<Slip>
        ensures { IsSlipAt phase is_late self.now result }
    {
        if phase != Phase::Gathering || is_late {
            return None;
        }
        match self.under_way.front() {
            Some(next) => slip_of(self.gathered.as_slice(), *next),
            None => None,
        }
    }
}

fn put_controls(under_way: &mut VecDeque<Character>, written: &[u8]) -> Result<(), NoMemory>
    ensures { OnOk result (under_way.new.items ≡ under_way.old.items ++ map control written.now) }
{
    let mut place = 0;
    'places: while place < written.len() {
        under_way.push_back(Character {
            byte: written[place],
            source: Source::Control,
        })?;
        place += 1;
    }
    Ok(())
}

fn put_frame(
    under_way: &mut VecDeque<Character>,
    frame: u64,
    written: &[u8],
) -> Result<(), NoMemory>
    ensures { OnOk result (under_way.new.items ≡ under_way.old.items ++ framed_from frame 0 written.now) }
{
    let mut place = 0;
    'places: while place < written.len() {
        under_way.push_back(Character {
            byte: written[place],
            source: Source::Frame(FramePlace {
                frame,
                place,
                written: written[place],
                is_last: place + 1 == written.len(),
            }),
        })?;
        place += 1;
    }
    Ok(())
}
