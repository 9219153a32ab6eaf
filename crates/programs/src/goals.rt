// Each goal of a book with its derivation, as the program `goals` prints it.
ghost use Rattle.programs.specs.Turn.{Rises};

use crate::{Reader, Status, Streams, Told};
use logic::Refusal;
use search::Proved;

// How many goals a book has.
fn goals_of(book: &[u8]) -> Result<u32, Refusal> {
    let n = book::read(book)?;
    Ok(n.goals as u32)
}

impl Streams {
    // Writes that a goal is reached, and in how many steps.
    fn tell_reached(self, steps: u16) -> Told<()> {
        self.put_line(|buffer| lines::reached_line(usize::from(steps), buffer))
    }

    // Writes how many goals are reached.
    fn tell_count(self, reached: u32, goals: u32) -> Told<()> {
        self.put_line(|buffer| lines::goals_line(reached, goals, buffer))
    }
}

impl Reader<'_> {
    // Writes the line of a goal.
    fn tell_goal(&self, goal: u32) -> Told<()> {
        let mut buffer = [0u8; 4160];
        let n = text::goal_line(self.book, goal, &mut buffer).map_err(|f| self.refused(f))?;
        self.streams.put(&buffer[..n])
    }

    // Writes the piece of the steps from number `from` on. The step to go on from, if there is one more.
    fn tell_piece(&self, derivation: &[u8], from: usize, buffer: &mut [u8]) -> Told<Option<usize>>
        ensures { Rises from result }
    {
        let told = text::explain(self.book, derivation, from, buffer).map_err(|f| self.refused(f))?;
        let Some(piece) = told else {
            return Ok(None);
        };
        self.streams.put(&buffer[..piece.bytes])?;
        Ok(Some(piece.next))
    }

    // Writes the steps piece by piece; it stops at the first write that fails.
    fn tell_pieces(&self, derivation: &[u8], buffer: &mut [u8]) -> Told<()> {
        let mut from: usize = 0;
        while let Some(next) = self.tell_piece(derivation, from, buffer)? {
            from = next;
        }
        Ok(())
    }

    // The same with a buffer of 64 KiB.
    fn tell_steps(&self, derivation: &[u8]) -> Told<()> {
        let mut buffer = [0u8; 65536];
        self.tell_pieces(derivation, &mut buffer)
    }

    // Writes a derivation that the checker accepts. That it accepts what the prover hands over is proved; it is asked all the same.
    fn tell_derivation(&self, goal: u32, derivation: &[u8], steps: u16) -> Told<()> {
        if checker::check(self.book, goal, derivation).is_err() {
            self.streams.put(b"not accepted by the checker\n")?;
            return Err(Status::Refused);
        }
        self.streams.tell_reached(steps)?;
        self.tell_steps(derivation)
    }

    // Writes whether a goal is reached, and how. Whether it is.
    fn tell_proof(&self, goal: u32, work: &mut [u8], derivation: &mut [u8]) -> Told<bool> {
        let proved = search::prove(self.book, goal, work, derivation).map_err(|f| self.refused(f))?;
        match proved {
            Proved::Reached(p) => {
                self.tell_derivation(goal, &derivation[..p.bytes], p.steps)?;
                Ok(true)
            }
            Proved::NotReached(_) => {
                self.streams.put_line(lines::unreached_line)?;
                Ok(false)
            }
        }
    }

    // Writes the goals one by one, and then how many are reached.
    fn tell_all(&self, goals: u32, work: &mut [u8], derivation: &mut [u8]) -> Told<()> {
        let mut reached: u32 = 0;
        for goal in 0..goals {
            self.tell_goal(goal)?;
            reached += u32::from(self.tell_proof(goal, work, derivation)?);
        }
        self.streams.tell_count(reached, goals)
    }

    // The buffers have room for every book: F × 8 bytes of work, F × 12 for a derivation.
    fn tell_goals(&self, goals: u32) -> Told<()> {
        let mut work = [0u8; 311296];
        let mut derivation = [0u8; 466944];
        self.tell_all(goals, &mut work, &mut derivation)
    }

    pub(crate) fn explain_book(&self) -> Told<()> {
        let goals = goals_of(self.book).map_err(|f| self.refused(f))?;
        self.tell_goals(goals)
    }
}
