// Clauses as words in memory.
ghost use Rattle.std.specs.Prelude.{◌≡◌, ◌+◌, ◌<◌, ◌≤◌, length};
ghost use Rattle.formula.specs.Boolean.{words};
ghost use Rattle.mapping.specs.Memory.{ended, over};

// Writes a clause at the front of memory, its literals and a 0 behind them, and answers its words. Where it has no room, nothing is written.
pub fn write_clause(literals: &[i32], memory: &mut [i32]) -> usize
    ensures room { length literals.now < length memory.old → (result ≡ words literals.now) × (memory.new ≡ over (ended literals.now) memory.old) }
    ensures none { length memory.old ≤ length literals.now → (result ≡ 0) × (memory.new ≡ memory.old) }
{
    let count = literals.len();
    if count >= memory.len() {
        return 0;
    }
    for (place, literal) in literals.iter().enumerate() {
        memory[place] = *literal;
    }
    memory[count] = 0;
    count + 1
}
