//! What a row gives: words, a script, files, what connections and callers send, and plans.
use crate::spelling::{number_of, parted, put_text};
use crate::trouble::Trouble;
use crate::vectors::{Named, Turn, Vectors};
use av_base::PlanStep;
use std::alloc::Global;

/// What the calls of each form do in turn. Behind the end of a plan each call moves all that it can.
#[derive(Drop)]
pub struct Plans {
    pub script: Vec<PlanStep>,
    pub shelf: Vec<PlanStep>,
    pub links: Vec<PlanStep>,
    pub sink: Vec<PlanStep>,
}

/// What a run is given.
#[derive(Drop)]
pub struct Given {
    alloc: Global,
    pub words: Vec<String>,
    pub script: Vec<u8>,
    pub files: Vec<Named>,
    pub coming: Vec<Named>,
    pub callers: Vec<Named>,
    pub plans: Plans,
}

impl Given {
    /// The word `run`, and nothing else. No call fails.
    pub fn new(alloc: Global) -> Result<Given, Trouble> {
        let mut words = Vec::new(alloc);
        words.push(String::from_str(alloc, "run")?)?;
        Ok(Given {
            alloc,
            words,
            script: Vec::new(alloc),
            files: Vec::new(alloc),
            coming: Vec::new(alloc),
            callers: Vec::new(alloc),
            plans: Plans {
                script: Vec::new(alloc),
                shelf: Vec::new(alloc),
                links: Vec::new(alloc),
                sink: Vec::new(alloc),
            },
        })
    }

    /// Takes a line's key and the rest of it, and answers whether the key is one of those here.
    pub fn take(
        &mut self,
        key: &str,
        rest: &str,
        vectors: &Vectors,
        turn: Turn,
    ) -> Result<bool, Trouble> {
        match key {
            ">" => {
                put_text(&mut self.script, rest)?;
                self.script.push(b'\n')?;
            }
            ">>" => put_text(&mut self.script, rest)?,
            ">*" => vectors.put_pieces(&mut self.script, rest, turn)?,
            "words" => self.words.clear(),
            "word" => self.words.push(String::from_str(self.alloc, rest)?)?,
            "file" => self.files.push(vectors.named(rest, turn)?)?,
            "from" => self.coming.push(vectors.named(rest, turn)?)?,
            "caller" => self.callers.push(vectors.named(rest, turn)?)?,
            "plan" => self.plans.add(rest, turn.number)?,
            "fails" => self.plans.fail(rest, turn.number)?,
            _ => return Ok(false),
        }
        Ok(true)
    }

    /// How many bytes the sink's calls before one of them move, where each moves all that it may.
    pub fn moved_before(&self, number: usize) -> usize {
        let mut moved = 0usize;
        for step in self.plans.sink.iter().take(number.saturating_sub(1)) {
            if let PlanStep::AtMost(count) = step {
                moved = moved.saturating_add(*count as usize);
            }
        }
        moved
    }
}

impl Plans {
    // The plan of a form.
    fn of(&mut self, form: &str) -> Result<&mut Vec<PlanStep>, Trouble> {
        match form {
            "script" => Ok(&mut self.script),
            "shelf" => Ok(&mut self.shelf),
            "links" => Ok(&mut self.links),
            "sink" => Ok(&mut self.sink),
            _ => Err(Trouble::Line),
        }
    }

    // A form, how many times the steps come, and the steps.
    fn add(&mut self, text: &str, number: usize) -> Result<(), Trouble> {
        let (form, rest) = parted(text, ' ')?;
        let (count, steps) = parted(rest, ' ')?;
        let plan = self.of(form)?;
        for _ in 0..number_of(count)? {
            put_steps(plan, steps, number)?;
        }
        Ok(())
    }

    // The call of this number of a form fails, counted from 1.
    fn fail(&mut self, form: &str, number: usize) -> Result<(), Trouble> {
        match self.of(form)?.get_mut(number.saturating_sub(1)) {
            Some(step) => {
                *step = PlanStep::Fail;
                Ok(())
            }
            None => Err(Trouble::Line),
        }
    }
}

// Steps: `fail`, or how many bytes a call may move, `k` for the turn's number.
fn put_steps(plan: &mut Vec<PlanStep>, steps: &str, number: usize) -> Result<(), Trouble> {
    for step in steps.split_whitespace() {
        plan.push(step_of(step, number)?)?;
    }
    Ok(())
}

fn step_of(step: &str, number: usize) -> Result<PlanStep, Trouble> {
    let most = match step {
        "fail" => return Ok(PlanStep::Fail),
        "k" => number,
        _ => number_of(step)?,
    };
    match u32::try_from(most) {
        Ok(most) => Ok(PlanStep::AtMost(most)),
        Err(_) => Err(Trouble::Line),
    }
}
