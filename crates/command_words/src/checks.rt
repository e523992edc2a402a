ghost use Rattle.std.specs.Prelude.{◌≡◌};
ghost use Rattle.command_words.specs.Matched.{check_by};

use plain_machine::IdentCheck;

/// Returns whether an image must be of the machine's own kernel, by whether that of another is taken too.
pub fn check_of(any_kernel: bool) -> IdentCheck
    ensures { result ≡ check_by any_kernel }
{
    if any_kernel {
        IdentCheck::Skip
    } else {
        IdentCheck::Compare
    }
}
