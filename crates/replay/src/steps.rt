//! A list of calls to be given to a writer.

ghost use Rattle.std.specs.Prelude.{◌≡◌, false};

use document::calls::Call;

/// A call, whether its question carries the flag of no size, and whether the writer accepted it.
#[derive(Clone, Copy)]
pub struct Step<'a> {
    pub call: Call<'a>,
    pub no_size: bool,
    // Stays: the mark that the writer's answer leaves in the caller's list; the call stands there either way.
    pub accepted: bool,
}

impl<'a> Step<'a> {
    /// A call that was not given yet; its question is without the flag.
    pub fn of(call: Call<'a>) -> Step<'a>
        ensures { result ≡ record { call = call.entry; no_size = false; accepted = false } }
    {
        Step {
            call,
            no_size: false,
            accepted: false,
        }
    }
}
