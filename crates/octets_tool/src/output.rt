//! What a command writes.
ghost use Rattle.std.specs.Prelude.{◌≡◌};

/// How a command ended, if its input was read and its output was written.
#[derive(Clone, Copy)]
pub enum Status {
    /// The output is the result.
    Answered,
    /// The output says where or why the input has no result.
    Refused,
}

/// The whole output of a command, in lines.
#[derive(Drop)]
pub struct Output {
    /// The lines, each with the line feed that ends it.
    pub text: String,
    /// Whether the lines are the result.
    pub status: Status,
}

impl Output {
    ghost use Rattle.std.specs.String.{string_bytes};
    ghost use Rattle.octets_tool.specs.Output.{shown};

    /// Returns the output with these lines, which are the result.
    pub fn answered(text: String) -> Output
        ensures { shown result ≡ record { text = string_bytes text; status = Status.Answered } }
    {
        Output {
            text,
            status: Status::Answered,
        }
    }

    /// Returns the output with these lines, which say where or why the input has no result.
    pub fn refused(text: String) -> Output
        ensures { shown result ≡ record { text = string_bytes text; status = Status.Refused } }
    {
        Output {
            text,
            status: Status::Refused,
        }
    }
}
