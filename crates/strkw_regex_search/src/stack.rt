//! A stack of answers, in an array of its own, so that it takes no memory.

ghost use Rattle.std.specs.Prelude.{◌≡◌, ◌≤◌, ◌+◌, [], ◌∷◌, length};
ghost use Rattle.strkw_regex_search.specs.machine.Walk.{first_or_false, below as spec_below};

// Two for each instruction that a program may have.
const ROOM: usize = 10_400;

#[derive(Drop)]
pub struct Stack {
    pub answers: [bool; ROOM],
    pub first: usize,
    ghost room: { length answers ≡ 10400 },
    ghost within: { first ≤ 10400 },
}

impl Stack {
    ghost use Rattle.strkw_regex_search.specs.machine.Machine.{answers_of};

    pub fn new() -> Stack
        ensures empty { answers_of result ≡ [] }
        ensures room { result.first ≡ 10400 }
    {
        Stack {
            answers: [false; ROOM],
            first: ROOM,
        }
    }

    /// Takes all answers off.
    pub(crate) fn clear(&mut self)
        ensures empty { answers_of self.new ≡ [] }
        ensures room { self.new.first ≡ 10400 }
    {
        self.first = ROOM;
    }

    pub fn push(&mut self, answer: bool)
        requires { 1 ≤ self.old.first }
        ensures pushed { answers_of self.new ≡ answer ∷ answers_of self.old }
        ensures room { self.new.first + 1 ≡ self.old.first }
    {
        self.first -= 1;
        self.answers[self.first] = answer;
    }

    /// Takes the last answer off: `false` where there is none.
    pub(crate) fn pop(&mut self) -> bool
        ensures last { result ≡ first_or_false (answers_of self.old) }
        ensures popped { answers_of self.new ≡ spec_below (answers_of self.old) }
        ensures room { self.old.first ≤ self.new.first }
    {
        if self.first == ROOM {
            return false;
        }
        let answer = self.answers[self.first];
        self.first += 1;
        answer
    }
}
