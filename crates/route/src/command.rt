// The commands of a plan and how many bytes each takes.
ghost use Rattle.std.specs.Prelude.{◌≡◌};
ghost use Rattle.route.specs.Commands.{width, is_cut};

// Kept: the command is the byte of the file format (docs/FORMATS.md), unknown ones too.
// How many bytes the command takes with its operands; 0 for a command that is none of a plan's.
#[tactic(auto, unfolding(crate::specs::Commands::width))]
pub fn width(command: u8) -> usize
    ensures { result ≡ width command }
{
    match command {
        16 => 4,
        17 | 18 | 19 => 9,
        20 => 3,
        21 => 1,
        _ => 0,
    }
}

// At this place there is no command, an unknown one, or one whose operands are cut off.
pub fn is_cut(plan: &[u8], at: usize) -> bool
    ensures { result ≡ is_cut plan.now at }
{
    if at < plan.len() {
        let bytes = width(plan[at]);
        return bytes == 0 || plan.len() - at < bytes;
    }
    true
}
