//! The one that makes the passes of a crew and takes them back.

ghost use Rattle.std.specs.Prelude.{◌≡◌, ◌+◌, ◌-◌, ◌<◌, ◌≤◌, [], ◌++◌, None, true, false};
ghost use Rattle.at_crew.specs.Seats.{IsChiefSeat};

use crate::crew::Crew;
use crate::job::Job;
use crate::pass::Pass;
use crate::steps::{CrewSeat, Gather, Hire};

/// The one that makes a crew's passes and takes them back.
#[derive(Drop)]
pub struct Chief<J: Job> {
    pub(crate) seat: CrewSeat<J>,
    pub(crate) passes: u32,
    pub(crate) made: u32,
    pub(crate) away: u32,
    ghost sits: { IsChiefSeat seat.me made away × (made ≤ passes) × (passes ≤ 64) },
}

impl<J: Job> Chief<J> {
    ghost use Rattle.at_crew.specs.Shown.{IsChiefOf, IsPassOf, passes_allowed, passes_made, passes_away};
    ghost use Rattle.at_crew.specs.Shown.{blocks_gathered, nodes_gathered, pass_number, block_held, last_number};
    ghost use Rattle.at_crew.specs.Shown.{has_ended, blocks_claimed, nodes_merged};

    /// How many passes can still be made.
    pub fn left(&self) -> u32
        ensures { result ≡ passes_allowed self.now - passes_made self.now }
    {
        self.passes - self.made
    }

    /// How many passes were made and not taken back.
    pub fn away(&self) -> u32
        ensures { result ≡ passes_away self.now }
    {
        self.away
    }

    /// Makes a pass, whose number is the count of those made before. It holds no block and is not over.
    pub fn pass(&mut self, crew: &Crew<J>) -> Pass<J>
        requires one_crew { IsChiefOf crew.now self.old }
        requires left { passes_made self.old < passes_allowed self.old }
        ensures one_crew { IsChiefOf crew.now self.new × IsPassOf crew.now result }
        ensures number { (pass_number result ≡ passes_made self.old) × (pass_number result < 64) }
        ensures ready { (block_held result ≡ None) × (has_ended result ≡ false) }
        ensures new { (last_number result ≡ None) × (blocks_claimed result ≡ []) × (nodes_merged result ≡ []) }

        // the chief
        ensures made { passes_made self.new ≡ passes_made self.old + 1 }
        ensures away { passes_away self.new ≡ passes_away self.old + 1 }
        ensures allowed { passes_allowed self.new ≡ passes_allowed self.old }
        ensures blocks { blocks_gathered self.new ≡ blocks_gathered self.old }
        ensures nodes { nodes_gathered self.new ≡ nodes_gathered self.old }
    {
        let seat = crew.table.shared.split_seat::<Hire>(&mut self.seat);
        let number = self.made;
        self.made += 1;
        self.away += 1;
        Pass {
            seat,
            number,
            holding: None,
            last: None,
            over: false,
        }
    }

    /// Takes back a pass that is over, and its lists behind those that it has.
    pub fn take_back(&mut self, crew: &Crew<J>, pass: Pass<J>)
        requires one_crew { IsChiefOf crew.now self.old × IsPassOf crew.now pass }
        requires over { has_ended pass ≡ true }
        ensures one_crew { IsChiefOf crew.now self.new }
        ensures blocks { blocks_gathered self.new ≡ blocks_gathered self.old ++ blocks_claimed pass }
        ensures nodes { nodes_gathered self.new ≡ nodes_gathered self.old ++ nodes_merged pass }
        ensures away { passes_away self.new ≡ passes_away self.old - 1 }
        ensures made { passes_made self.new ≡ passes_made self.old }
        ensures allowed { passes_allowed self.new ≡ passes_allowed self.old }
    {
        let Pass { seat, .. } = pass;
        crew.table.shared.join_seat::<Gather>(&mut self.seat, seat);
        self.away = self.away.saturating_sub(1);
    }
}
