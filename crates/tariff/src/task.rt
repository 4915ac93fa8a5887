// The tariff from its first line to a change, told for a person.
ghost use Rattle.std.specs.Prelude.{IfOk, [], ◌∷◌, ◌++◌};
ghost use Rattle.std.specs.List.{FoldsTo};
ghost use Rattle.tariff.specs.Tasks.{entering, counting, resting, needing, standing, closing, freeing, beginning, changing, task};

use crate::question::Question;
use crate::{BLOCKS, Block, LINES, Line};
use asking::pair::Pair;
use std::io;

/// What asks books of the tariff, one or several, and says what they answer.
pub trait Teller {
    ghost use Rattle.tariff.specs.declared.question.Question.{Question};

    // what a question does to the books that are asked
    ghost asked: { Self → Question → Self → Type 0 };

    /// Puts one question, and says what is answered.
    fn say(&mut self, rt: &HostRuntime, question: Question) -> io::Result<()>
        ensures { asked self.old question self.new };
}

/// The task that a teller tells.
#[derive(Drop)]
pub struct Task<'a, T> {
    pub rt: &'a HostRuntime,
    pub teller: T,
}

impl<'a, T: Teller> Task<'a, T> {
    /// Puts questions, one after another.
    fn say_each(&mut self, questions: &[Question]) -> io::Result<()>
        ensures { IfOk result (λ done. FoldsTo T.asked self.old.teller questions.now self.new.teller) }
    {
        for question in questions {
            self.teller.say(self.rt, *question)?;
        }
        Ok(())
    }

    /// Enters the lines of the tariff.
    fn enter_lines(&mut self) -> io::Result<()>
        ensures { IfOk result (λ done. FoldsTo T.asked self.old.teller entering self.new.teller) }
    {
        self.say_each(&LINES.map(Question::Enter))
    }

    /// How often the blocks of the tariff count in an airport trip.
    fn say_totals(&mut self) -> io::Result<()>
        ensures { IfOk result (λ done. FoldsTo T.asked self.old.teller counting self.new.teller) }
    {
        println!(self.rt;
            "How often each block counts in an airport trip (over how many lines that end at it):"
        )?;
        let upper = Block::AirportTrip;
        let lowers = [Block::BaseCharge, Block::Luggage, Block::Discount];
        self.say_each(&lowers.map(|lower| Question::Count(Pair { upper, lower })))
    }

    /// Which blocks rest on luggage, so that a change of it concerns them.
    fn say_resting(&mut self) -> io::Result<()>
        ensures { IfOk result (λ done. FoldsTo T.asked self.old.teller resting self.new.teller) }
    {
        let lower = Block::Luggage;
        println!(self.rt; "What rests on {lower}:")?;
        self.say_each(&BLOCKS.map(|upper| Question::Rest(Pair { upper, lower })))
    }

    /// Which lines are needed to show the whole reach.
    fn say_needed(&mut self) -> io::Result<()>
        ensures { IfOk result (λ done. FoldsTo T.asked self.old.teller needing self.new.teller) }
    {
        println!(self.rt; "Which lines show the whole reach:")?;
        self.say_each(&LINES.map(|Line { upper, lower, .. }| Question::Need(Pair { upper, lower })))
    }

    /// What the books answer as they stand.
    #[tactic(auto, using(crate::proofs::Tasks::asked_then))]
    fn say_all(&mut self) -> io::Result<()>
        ensures { IfOk result (λ done. FoldsTo T.asked self.old.teller standing self.new.teller) }
    {
        self.say_totals()?;
        self.say_resting()?;
        self.say_needed()?;
        Ok(())
    }

    /// Tries to enter a line that would close a circle.
    fn close_circle(&mut self) -> io::Result<()>
        ensures { IfOk result (λ done. FoldsTo T.asked self.old.teller closing self.new.teller) }
    {
        println!(self.rt; "A line that would close a circle:")?;
        self.say_each(&[Question::Enter(Line {
            upper: Block::Luggage,
            lower: Block::AirportTrip,
            factor: 1,
        })])
    }

    /// Strikes the lines by which luggage counts in the airport extra and in the day fare.
    fn free_luggage(&mut self) -> io::Result<()>
        ensures { IfOk result (λ done. FoldsTo T.asked self.old.teller freeing self.new.teller) }
    {
        println!(self.rt; "Luggage becomes free in the airport extra and in the day fare:")?;
        let lower = Block::Luggage;
        let uppers = [Block::AirportExtra, Block::DayFare];
        self.say_each(&uppers.map(|upper| Question::Strike(Pair { upper, lower })))
    }

    /// Enters the tariff, and asks about it.
    #[tactic(auto, using(crate::proofs::Tasks::asked_then), unfolding(crate::specs::Tasks::beginning))]
    fn begin(&mut self) -> io::Result<()>
        ensures { IfOk result (λ done. FoldsTo T.asked self.old.teller beginning self.new.teller) }
    {
        self.enter_lines()?;
        self.say_all()?;
        Ok(())
    }

    /// Tries a circle, strikes two lines, and asks about the tariff again.
    #[tactic(auto, using(crate::proofs::Tasks::asked_then), unfolding(crate::specs::Tasks::changing))]
    fn change(&mut self) -> io::Result<()>
        ensures { IfOk result (λ done. FoldsTo T.asked self.old.teller changing self.new.teller) }
    {
        self.close_circle()?;
        self.free_luggage()?;
        self.say_all()?;
        Ok(())
    }

    /// The whole task: the tariff is entered and asked about, a circle is refused, and two lines are struck.
    #[tactic(auto, using(crate::proofs::Tasks::asked_then))]
    pub fn tell(&mut self) -> io::Result<()>
        ensures { IfOk result (λ done. FoldsTo T.asked self.old.teller task self.new.teller) }
    {
        self.begin()?;
        self.change()?;
        Ok(())
    }
}
