// The calls that lines make.
ghost use Rattle.std.specs.Prelude.{◌≡◌, map, IfOk};
ghost use Rattle.std.specs.List.{flat_map};
ghost use Rattle.std.specs.Option.{option_map, option_to_list};
ghost use Rattle.rows.specs.Rows.{step_of};
ghost use Rattle.parser.specs.Said.{said_of};
ghost use Rattle.reader.specs.Program.{steps_in};

use parser::Line;
use rows::Call;
use std::alloc::{AllocError, Global};

// The call of a line, where it makes one.
pub(crate) fn call_of(line: &Option<Line>) -> Option<Call<'_>>
    ensures { steps_in (option_map said_of line.now) ≡ map step_of (option_to_list result) }
{
    match line.as_ref()? {
        Line::Declare(size) => Some(Call::Declare(*size)),
        Line::State(literals) => Some(Call::State(literals.as_slice())),
        Line::Mapping(_) => None,
    }
}

// The calls of the readable lines, as one row.
pub(crate) fn list_calls(heap: Global, lines: &[Option<Line>]) -> Result<Vec<Call<'_>>, AllocError>
    ensures { IfOk result (λ v. map step_of v.items ≡ flat_map steps_in (map (option_map said_of) lines.now)) }
{
    lines.iter().filter_map(call_of).collect(heap)
}
