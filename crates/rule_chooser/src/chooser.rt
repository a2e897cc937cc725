//! The chooser: a search of the sets of the walk, one after another, for the first that gives a plan. What a search works
//! with is made once and lent, so that a call takes no memory and makes no list of its own.
ghost use Rattle.std.specs.Prelude.{◌≡◌, ◌≤◌, true, [], length};
ghost use Rattle.walk_rules.specs.Walk.{gave, is_given, choice_of};
ghost use Rattle.rule_compat.specs.Written.{written_list};
ghost use Rattle.plan_rules.specs.declared.TheConstants.{MOST_MEMBERS};
ghost use Rattle.rule_chooser.specs.Shown.{shown, IsOf};
ghost use Rattle.rule_chooser.specs.Walked.{choice_shown};

use crate::full::add_answers;
use crate::ground::Ground;
use crate::visit::{MOST_ZONES, WalkOutcome, walk};
use arrayvec::ArrayVec;
use board_bits::Position;
use plan_rules::MOST_MEMBERS;
use rule_compat::{Instance, Plan, Zone};
use std::marker::Model;

/// What is chosen at a position, among the first so many sets of its walk.
#[derive(Drop)]
pub enum Choice {
    /// The plan of the first set that gives one.
    Gave(Plan),
    /// No set of the walk gives a plan; so also where Black is to move or the game has ended.
    NoPlan,
    /// None of the first so many sets gives a plan, and there are more.
    Spent,
}

/// What a search for a plan works with, made once and lent to each. A contract sees the list of instances that was given
/// last.
#[derive(Drop)]
pub struct Chooser {
    ground: Ground,
    set: ArrayVec<Zone, MOST_ZONES>,
    list: ArrayVec<Instance, MOST_MEMBERS>,
}

impl Model for Chooser {
    ghost use Rattle.std.specs.Prelude.{List};
    ghost use Rattle.rule_compat.specs.declared.instance.Instance.{Instance};

    ghost Value = { List Instance };

    ghost view = { λ chooser. chooser.list.items };
}

impl Chooser {
    /// A chooser that hasn't given a list yet.
    pub fn new() -> Chooser
        ensures { result ≡ [] }
    {
        Chooser {
            ground: Ground::new(),
            set: ArrayVec::new(),
            list: ArrayVec::new(),
        }
    }

    /// Whether one of the first `reach` sets of the position's walk gives a plan. No list is given: the one that was
    /// given last may be lost.
    pub fn find(&mut self, p: &Position, reach: u32) -> bool
        ensures found { result ≡ is_given (choice_of p.now reach) }
    {
        match walk(p, reach, &mut self.ground, &mut self.set, &mut self.list) {
            WalkOutcome::Plan => true,
            WalkOutcome::NoPlan | WalkOutcome::Spent => false,
        }
    }

    /// Whether one of the first `reach` sets of the position's walk gives a plan; and then the plan of the first that
    /// does is the list that is given: its zones in the order of adding, and then the standing instances that answer
    /// the groups which the zones leave, group by group. Otherwise the list that was given last may be lost.
    pub fn give(&mut self, p: &Position, reach: u32) -> bool
        ensures found { result ≡ is_given (choice_of p.now reach) }
        ensures plan { result ≡ true → choice_of p.now reach ≡ gave (written_list self.new) }
        ensures few { length self.new ≤ MOST_MEMBERS }
    {
        match self.list_choice(p, reach) {
            WalkOutcome::Plan => true,
            WalkOutcome::NoPlan | WalkOutcome::Spent => false,
        }
    }

    /// The list of instances that was given last.
    pub fn plan(&self) -> &ArrayVec<Instance, MOST_MEMBERS>
        ensures value { result.now.items ≡ self.now }
        ensures few { length self.now ≤ MOST_MEMBERS }
    {
        // its contract says that no list has more
        let _few = self.list.as_slice();
        &self.list
    }

    /// The plan of the first set of the position's walk that gives one, where it is among the first `reach` sets; no
    /// plan where no set gives one and there are no more than `reach`; and else that the reach is spent. Where Black is
    /// to move or the game has ended there is no plan, whatever the reach; where White is to move and the game goes on,
    /// a reach of 0 is spent at once.
    pub fn choose(&mut self, p: &Position, reach: u32) -> Choice
        ensures choice { shown result ≡ choice_of p.now reach }
        ensures at { IsOf p.now result }
    {
        match self.list_choice(p, reach) {
            WalkOutcome::Plan => Choice::Gave(Plan::check(p, self.list.as_slice()).unwrap()),
            WalkOutcome::NoPlan => Choice::NoPlan,
            WalkOutcome::Spent => Choice::Spent,
        }
    }

    /// The same, with the list that is given where a set gives a plan.
    fn list_choice(&mut self, p: &Position, reach: u32) -> WalkOutcome
        ensures found { choice_of p.now reach ≡ choice_shown (written_list self.new) result }
        ensures few { length self.new ≤ MOST_MEMBERS }
    {
        let found = walk(p, reach, &mut self.ground, &mut self.set, &mut self.list);
        if let WalkOutcome::Plan = found {
            add_answers(p, &self.ground, &mut self.list);
        }
        // its contract says that no list has more
        let _few = self.list.as_slice();
        found
    }
}

/// What a new chooser chooses.
pub fn choose(p: &Position, reach: u32) -> Choice
    ensures choice { shown result ≡ choice_of p.now reach }
    ensures at { IsOf p.now result }
{
    Chooser::new().choose(p, reach)
}
