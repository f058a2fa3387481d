// The desk that takes statements.
ghost use Rattle.std.specs.Prelude.{◌≡◌, map};
ghost use Rattle.batch.specs.Desks.{view, fresh, with_closed, Took};
ghost use Rattle.batch.specs.Statements.{said, read_as, kind_is, order_is, input_is, term_is};
ghost use Rattle.batch.specs.Words.{token};

use crate::draft::Draft;
use crate::factors::monomial_of;
use crate::fault::{Fault, Mistake};
use crate::inputs::Inputs;
use crate::kind::KindChoice;
use crate::method::MethodChoice;
use crate::statement::Statement;
use crate::words::Word;
use interval::{Interval, Kind, Reason, Variable};
use polynomial::Term;
use std::alloc::Global;

// Whoever prints reads its fields, so it is seen as they are and not as a model; clauses speak of its `view`.
#[derive(Drop)]
pub struct Desk {
    pub kind: KindChoice,
    pub method: MethodChoice,
    pub order: u8,
    pub inputs: Inputs,
    pub draft: Draft,
    // the polynomial that was closed last
    pub closed: Draft,
}

impl Desk {
    pub fn new(heap: Global) -> Desk
        ensures value { view result ≡ fresh }
    {
        Desk {
            kind: KindChoice::Fixed,
            method: MethodChoice::Quadratic,
            order: 3,
            inputs: Inputs::new(heap),
            draft: Draft::new(),
            closed: Draft::new(),
        }
    }

    #[tactic(auto, using(crate::proofs::Taking::counted), unfolding(crate::specs::Desks::taken))]
    fn choose_kind<'a>(&mut self, choice: KindChoice) -> Result<(), Fault<'a>>
        ensures value { Took (view self.old) (kind_is choice) (read_as (λ x. x) result) (view self.new) }
    {
        if !self.inputs.all.is_empty() {
            return Err(Mistake::LateKind.into());
        }
        self.kind = choice;
        Ok(())
    }

    #[tactic(auto, unfolding(crate::specs::Desks::taken))]
    fn choose_order<'a>(&mut self, order: u64) -> Result<(), Fault<'a>>
        ensures value { Took (view self.old) (order_is order) (read_as (λ x. x) result) (view self.new) }
    {
        if !(1..=8).contains(&order) {
            return Err(Reason::OrderOutOfRange.into());
        }
        self.order = order as u8;
        Ok(())
    }

    #[tactic(auto, using(crate::proofs::Taking::counted, crate::proofs::Taking::names_are), unfolding(crate::specs::Desks::taken))]
    fn add_input<'a>(
        &mut self,
        heap: Global,
        name: &'a str,
        low: f64,
        high: f64,
    ) -> Result<(), Fault<'a>>
        ensures value { Took (view self.old) (input_is name.now low high) (read_as (λ x. x) result) (view self.new) }
    {
        if self.inputs.place(name).is_some() {
            return Err(Fault::Mistaken(Mistake::NameTaken, name));
        }
        if self.inputs.all.len() >= 6 {
            return Err(Fault::Refused(Reason::VariablesOutOfRange, name));
        }
        let made = Variable::new(low, high, self.kind.scale());
        let variable = made.map_err(|reason| Fault::Refused(reason, name))?;
        self.inputs.add(heap, name, variable)?;
        Ok(())
    }

    #[tactic(auto, using(crate::proofs::Taking::hull_fit, crate::proofs::Taking::names_are), unfolding(crate::specs::Desks::taken))]
    fn add_term<'a>(&mut self, coefficient: f64, factors: &[Word<'a>]) -> Result<(), Fault<'a>>
        ensures value { Took (view self.old) (term_is coefficient (map token factors.now)) (read_as (λ x. x) result) (view self.new) }
    {
        let hull = Interval::hull(coefficient, self.kind.scale());
        let coefficient = hull.ok_or(Reason::ConstantDoesNotFit)?;
        let monomial = monomial_of(&self.inputs, self.order, factors)?;
        self.draft.enter(Term {
            monomial,
            coefficient,
        })?;
        Ok(())
    }

    fn close(&mut self)
        ensures value { view self.new ≡ with_closed (view self.old) }
    {
        self.closed = self.draft.reduced();
        self.draft = Draft::new();
    }

    // Changes only what the statement assigns; an objection changes nothing.
    #[tactic(auto, unfolding(crate::specs::Desks::taken))]
    pub fn take<'a>(&mut self, heap: Global, statement: Statement<'_, 'a>) -> Result<(), Fault<'a>>
        ensures value { Took (view self.old) (said statement.entry) (read_as (λ x. x) result) (view self.new) }
    {
        match statement {
            Statement::Nothing => {}
            Statement::Kind(choice) => self.choose_kind(choice)?,
            Statement::Method(choice) => self.method = choice,
            Statement::Order(order) => self.choose_order(order)?,
            Statement::Input { name, low, high } => self.add_input(heap, name, low, high)?,
            Statement::Term {
                coefficient,
                factors,
            } => self.add_term(coefficient, factors)?,
            Statement::Range => self.close(),
        }
        Ok(())
    }
}
