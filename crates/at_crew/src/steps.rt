//! The rule of a crew's table, and what each step on it tells the pass that takes it.
ghost use Rattle.at_crew.specs.declared.view.View.TheVariants.{Spent, Leads};
ghost use Rattle.at_crew.specs.Rule.{CrewRule};
ghost use Rattle.at_crew.specs.Steps.{ClaimTells, DepositTells, RootHomeTells};
ghost use Rattle.at_crew.specs.Views.{gathers, hired, hires, leader};

use crate::job::Job;
use crate::view::View;
use atomic_table::{Join, Play, Seat, Split, Table, TableRule};
use std::alloc::Global;
use std::marker::PhantomData;

/// The rule that every step keeps.
pub struct TreeRule;

impl<J: Job> TableRule<Option<J::Part>, View<J::Facts>, J> for TreeRule {
    ghost holds = { λ j. CrewRule J.stands (J.facts j) (J.count (J.facts j)) };

    ghost first = { λ j. Leads (leader (J.facts j)) };
}

/// The words and slots of a crew: as many slots as blocks, and a word more.
pub type CrewTable<J> = Table<
    Option<<J as Job>::Part>,
    View<<J as Job>::Facts>,
    J,
    TreeRule,
    Global,
>;

/// What a pass or the chief steps with.
pub type CrewSeat<J> = Seat<Option<<J as Job>::Part>, View<<J as Job>::Facts>>;

/// One number more is fetched from the claim word.
pub(crate) struct Claim<J> {
    marker: PhantomData<J>,
}

impl<J: Job> Play<Option<J::Part>, View<J::Facts>> for Claim<J> {
    ghost then = { ClaimTells J.count };
}

/// A node's bit is set in its parent's word.
pub(crate) struct Deposit<J> {
    marker: PhantomData<J>,
}

impl<J: Job> Play<Option<J::Part>, View<J::Facts>> for Deposit<J> {
    ghost then = { DepositTells J.stands J.count };
}

/// The root's own word is set.
pub(crate) struct RootHome<J> {
    marker: PhantomData<J>,
}

impl<J: Job> Play<Option<J::Part>, View<J::Facts>> for RootHome<J> {
    ghost then = { RootHomeTells };
}

/// The chief makes a pass.
pub(crate) struct Hire;

impl<F> Split<View<F>> for Hire {
    ghost left = { hires };

    ghost right = { hired };
}

/// The chief takes a pass back.
pub(crate) struct Gather;

impl<F> Join<View<F>> for Gather {
    ghost both = { gathers };

    ghost spent = { Spent };
}
