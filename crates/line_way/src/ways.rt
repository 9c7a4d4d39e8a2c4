//! Both directions as one value, whose calls are deeds of `line_order`'s line.

ghost use Rattle.std.specs.Prelude.{◌≡◌, ◌<◌, ◌≤◌, ◌+◌, ◌++◌, ◌^◌, ℕ, true, [], OnOk, OnErr};
ghost use Rattle.line_end.specs.Plan.{TimesFit};
ghost use Rattle.line_end.specs.declared.plan.Times.{Times};
ghost use Rattle.line_order.specs.Acts.Act.{Lose, Change, Add, PowerLoss};
ghost use Rattle.line_order.specs.Line.{Line, new_line};
ghost use Rattle.line_way.specs.Kept.{IsSlipAt, IsSlipOf, count_after, gathered_with_next, makes_slip_in, new_ways, way_after, direction_to, ways_after, with_change, with_noise_to, with_direction, with_written, without_next, without_power};
ghost use Rattle.line_way.specs.Slip.{TellsSlip};
ghost use Rattle.line_way.specs.Step.{DoesStep};
ghost use Rattle.line_way.specs.Ways.{DoesDeed, StandsFor, StandsForNew, characters_of, is_under_way, next_byte, way_to};

use crate::Slip;
use crate::way::Way;
use gl_base::{NoMemory, Side};
use line_end::Phase;
use std::alloc::Global;
use std::marker::Model;

/// Both directions of a line: the characters on their way to each end, with where they come from, and those that each
/// end has gathered of a frame. It stands for a line of `line_order`, less what the laws alone speak of: each call that
/// changes it is a deed of that line, and what it tells is true of that line.
///
/// Of a frame nothing is kept but its characters: what was written at each place, and which is the last. So memory is
/// that of the characters under way and gathered, however many went before. The time of a call doesn't depend on how
/// many these are, but for `empty`, which lets all of them go. A step takes a constant time for each character that it
/// writes; `slip` looks through what was gathered only where as many characters have come as were announced, which is
/// once a frame.
#[derive(Drop, Debug)]
pub struct Ways {
    to_equipment: Way,
    to_host: Way,
    written: u64,
}

impl Model for Ways {
    ghost use Rattle.line_way.specs.Ways.{Ways};

    ghost Value = { Ways };

    ghost view = { λ w. record { to_equipment = w.to_equipment; to_host = w.to_host; written = w.written } };
}

impl Ways {
    /// A line on which nothing has happened. It takes no memory yet.
    pub fn new(alloc: Global) -> Ways
        ensures stands { StandsForNew result }
        ensures ways { result ≡ new_ways }
        ensures count { result.written ≡ 0 }
    {
        Ways {
            to_equipment: Way::new(alloc),
            to_host: Way::new(alloc),
            written: 0,
        }
    }

    /// Whether a character is on its way to an end.
    pub fn is_under_way(&self, side: Side) -> bool
        ensures line { (line : Line) → StandsFor self.now line → result ≡ is_under_way (way_to side line) }
        ensures way { result ≡ is_under_way (characters_of (direction_to side self.now).under_way) }
    {
        self.next(side).is_some()
    }

    /// The next character on its way to an end, where there is one. It stays on its way.
    pub fn next(&self, side: Side) -> Option<u8>
        ensures line { (line : Line) → StandsFor self.now line → result ≡ next_byte (way_to side line) }
        ensures way { result ≡ next_byte (characters_of (direction_to side self.now).under_way) }
    {
        self.next_to(side)
    }

    fn next_to(&self, side: Side) -> Option<u8>
        ensures { result ≡ next_byte (characters_of (direction_to side self.now).under_way) }
    {
        match side {
            Side::Equipment => self.to_equipment.next(),
            Side::Host => self.to_host.next(),
        }
    }

    /// The next character on its way to an end is lost, where there is one.
    pub fn lose(&mut self, side: Side)
        ensures deed { DoesDeed self.old side Lose self.new }
        ensures ways { self.new ≡ with_direction side (without_next (direction_to side self.old)) self.old }
        ensures count { self.new.written ≡ self.old.written }
    {
        self.lose_to(side);
    }

    fn lose_to(&mut self, side: Side)
        ensures { self.new ≡ with_direction side (without_next (direction_to side self.old)) self.old }
    {
        match side {
            Side::Equipment => self.to_equipment.lose(),
            Side::Host => self.to_host.lose(),
        }
    }

    /// The character at a place on its way to an end, from 0 for the next one, becomes this byte, where one is there.
    /// Where it comes from stays, so that a change and its change back leave no trace.
    pub fn change(&mut self, side: Side, place: u32, byte: u8)
        ensures deed { DoesDeed self.old side (Change place byte) self.new }
        ensures ways { self.new ≡ with_direction side (with_change place byte (direction_to side self.old)) self.old }
        ensures count { self.new.written ≡ self.old.written }
    {
        self.change_to(side, place as usize, byte);
    }

    fn change_to(&mut self, side: Side, place: usize, byte: u8)
        ensures { self.new ≡ with_direction side (with_change place byte (direction_to side self.old)) self.old }
    {
        match side {
            Side::Equipment => self.to_equipment.change(place, byte),
            Side::Host => self.to_host.change(place, byte),
        }
    }

    /// A character that no end has written comes in front of those on their way to an end.
    ///
    /// `NoMemory` where memory runs out; all stays as it was then.
    pub fn add(&mut self, side: Side, byte: u8) -> Result<(), NoMemory>
        ensures deed { OnOk result (DoesDeed self.old side (Add byte) self.new) }
        ensures ways { OnOk result (self.new ≡ with_noise_to side byte self.old) }
        ensures err { OnErr result (self.new ≡ self.old) }
        ensures count { self.new.written ≡ self.old.written }
    {
        self.add_to(side, byte)
    }

    fn add_to(&mut self, side: Side, byte: u8) -> Result<(), NoMemory>
        ensures ok { OnOk result (self.new ≡ with_noise_to side byte self.old) }
        ensures err { OnErr result (self.new ≡ self.old) }
    {
        match side {
            Side::Equipment => self.to_equipment.add(byte),
            Side::Host => self.to_host.add(byte),
        }
    }

    /// An end has lost its power: both directions are empty, and it has gathered nothing. The numbers of frames go on.
    pub fn empty(&mut self, side: Side)
        ensures deed { DoesDeed self.old side PowerLoss self.new }
        ensures ways { self.new ≡ without_power side self.old }
        ensures count { self.new.written ≡ self.old.written }
    {
        self.empty_both(side);
    }

    fn empty_both(&mut self, side: Side)
        ensures { self.new ≡ without_power side self.old }
    {
        self.to_equipment.empty();
        self.to_host.empty();
        match side {
            Side::Equipment => self.to_equipment.forget(),
            Side::Host => self.to_host.forget(),
        }
    }

    /// The slip that an end's next step makes, where it gives the end a character: that completes a block whose
    /// characters are no frame of the other end, unchanged and whole.
    ///
    /// It is told before the step, from the phase in which the end is and whether T1 has run out since its last
    /// character (of `Gathering` alone; elsewhere any answer will do), what was gathered, and the next character.
    pub fn slip(&self, side: Side, phase: Phase, is_late: bool) -> Option<Slip>
        ensures line { TellsSlip self.now side phase is_late result }
        ensures way { IsSlipAt phase is_late (direction_to side self.now) result }
    {
        self.slip_at(side, phase, is_late)
    }

    fn slip_at(&self, side: Side, phase: Phase, is_late: bool) -> Option<Slip>
        ensures { IsSlipAt phase is_late (direction_to side self.now) result }
    {
        match side {
            Side::Equipment => self.to_equipment.slip(phase, is_late),
            Side::Host => self.to_host.slip(phase, is_late),
        }
    }

    /// An end has made a step: with the next character on its way to it (`gives`) or without one, where none was there
    /// too; it is in this phase now, and has written these characters, the line's controls and at most one frame.
    ///
    /// `written` must be all that the step wrote, in order. `NoMemory` where memory runs out; nothing is said of the
    /// directions then.
    pub fn step(
        &mut self,
        side: Side,
        gives: bool,
        phase: Phase,
        written: &[u8],
    ) -> Result<(), NoMemory>
        requires { self.old.written < 2 ^ 62 }
        ensures deeds { OnOk result (DoesStep self.old side gives phase written.now self.new) }
        ensures ways { OnOk result (self.new ≡ ways_after side gives phase written.now self.old) }
        ensures count { self.new.written ≤ self.old.written + 1 }
    {
        self.step_at(side, gives, phase, written)
    }

    fn step_at(
        &mut self,
        side: Side,
        gives: bool,
        phase: Phase,
        written: &[u8],
    ) -> Result<(), NoMemory>
        requires { self.old.written < 2 ^ 62 }
        ensures ways { OnOk result (self.new ≡ ways_after side gives phase written.now self.old) }
        ensures count { self.new.written ≤ self.old.written + 1 }
    {
        match side {
            Side::Equipment => pass(
                &mut self.to_equipment,
                &mut self.to_host,
                &mut self.written,
                gives,
                phase,
                written,
            ),
            Side::Host => pass(
                &mut self.to_host,
                &mut self.to_equipment,
                &mut self.written,
                gives,
                phase,
                written,
            ),
        }
    }
}

// The end that the first direction leads to has made a step.
fn pass(
    to: &mut Way,
    from: &mut Way,
    count: &mut u64,
    gives: bool,
    phase: Phase,
    written: &[u8],
) -> Result<(), NoMemory>
    requires { count.old < 2 ^ 62 }
    ensures to { OnOk result (to.new ≡ way_after gives phase to.old) }
    ensures from { OnOk result (from.new ≡ with_written count.old written.now from.old) }
    ensures count { OnOk result (count.new ≡ count_after count.old written.now) }
    ensures at_most { count.new ≤ count.old + 1 }
{
    to.take(gives, phase)?;
    from.write(count, written)
}
