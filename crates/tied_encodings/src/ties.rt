// What ties a literal to others, as words in memory.
ghost use Rattle.std.specs.Prelude.{◌≡◌, ◌+◌, ◌*◌, ◌≤◌, true, [], ◌∷◌, map, length};
ghost use Rattle.formula.specs.Boolean.{local, opposite};
ghost use Rattle.formula.specs.Tests.{every};
ghost use Rattle.mapping.specs.Memory.{ended, flat, over};
ghost use Rattle.encodings.specs.Ties.{tie};

use encodings::write_clause;
use mapping::FORM_LITERALS;

// A literal and those that it is tied to, as many as a form may have, all of Booleans from 1 to 127.
#[derive(Clone, Copy)]
pub(crate) struct Tie<'a> {
    pub(crate) literal: i32,
    pub(crate) others: &'a [i32],
    pub(crate) ghost few: { length others.now ≤ 8 },
    pub(crate) ghost narrow: { every (local 127) (literal ∷ others.now) ≡ true },
}

// kept: inlined always: where the number of literals is known the turns that find none go; as calls they take half as long again.
impl Tie<'_> {
    // Writes the literal's clause with each of the others, which it brings, at the front of memory, and answers the words.
    #[inline(always)]
    fn write_implications(&self, memory: &mut [i32]) -> usize
        requires { 3 * length self.now.others.now ≤ length memory.old }
        ensures count { result ≡ 3 * length self.now.others.now }
        ensures memory { memory.new ≡ over (flat (map (λ y. opposite self.now.literal ∷ y ∷ []) self.now.others.now)) memory.old }
    {
        let mut count = 0;
        // kept: tried as a fold; that its closure may be called at each turn stayed open (`fold-requires-clause-callable`).
        // Over all places that there may be, so as many turns at each call, which need no loop.
        for place in 0..FORM_LITERALS {
            if let Some(other) = self.others.get(place) {
                // Each has three words, its end among them.
                count += write_clause(&[-self.literal, *other], &mut memory[count..count + 3]);
            }
        }
        count
    }

    // Writes the clause of the literal and the opposites of the others, which bring it, at the front of memory, and answers the words.
    #[inline(always)]
    fn write_converse(&self, memory: &mut [i32]) -> usize
        requires { length self.now.others.now + 2 ≤ length memory.old }
        ensures count { result ≡ length self.now.others.now + 2 }
        ensures memory { memory.new ≡ over (ended (self.now.literal ∷ map opposite self.now.others.now)) memory.old }
    {
        let end = self.others.len() + 1;
        memory[0] = self.literal;
        // kept: the index; to copy the others first, and turn the copies in place, is a step more and no plainer.
        // Over all places here too.
        for place in 0..FORM_LITERALS {
            if let Some(other) = self.others.get(place) {
                memory[place + 1] = -*other;
            }
        }
        memory[end] = 0;
        end + 1
    }

    // Writes both at the front of memory, and answers the words.
    #[inline(always)]
    pub(crate) fn write(&self, memory: &mut [i32]) -> usize
        requires { 4 * length self.now.others.now + 2 ≤ length memory.old }
        ensures count { result ≡ 4 * length self.now.others.now + 2 }
        ensures memory { memory.new ≡ over (flat (tie self.now.literal self.now.others.now)) memory.old }
    {
        let count = self.write_implications(memory);
        count + self.write_converse(&mut memory[count..])
    }
}
