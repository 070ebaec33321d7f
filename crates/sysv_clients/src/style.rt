//! How a command shows the results of its requests.
ghost use Rattle.std.specs.Prelude.{◌≡◌};
ghost use Rattle.sysv_clients.specs.Style.{style_of, style_of_receipt};

use crate::command::{Form, Format, Receipt, Task};

/// How a command shows the results of its requests.
#[derive(Clone, Copy)]
pub(crate) struct Style {
    /// Whether a queue is shown as a JSON object, in place of a line of the table.
    pub(crate) json: bool,
    /// Whether the identifier of a queue is shown.
    pub(crate) shows_id: bool,
    /// Whether a message's type and a tab are shown before its body.
    pub(crate) shows_type: bool,
    /// The form in which a message is shown.
    pub(crate) form: Form,
    /// The maximum number of bytes of a message's body that are shown.
    pub(crate) size: u32,
}

/// The style of the table.
const PLAIN: Style = Style {
    json: false,
    shows_id: false,
    shows_type: false,
    form: Form::Line,
    size: 0,
};

impl Style {
    /// Returns the style of a task.
    pub(crate) fn of(task: &Task<'_>) -> Style
        ensures { result ≡ style_of task.now }
    {
        match task {
            Task::List(Format::Json) => Style {
                json: true,
                ..PLAIN
            },
            Task::Make(_) => Style {
                shows_id: true,
                ..PLAIN
            },
            Task::Receive(receipt) => Style::of_receipt(receipt),
            _ => PLAIN,
        }
    }

    /// Returns the style of a receipt.
    pub(crate) fn of_receipt(receipt: &Receipt) -> Style
        ensures { result ≡ style_of_receipt receipt.now }
    {
        Style {
            shows_type: receipt.show_type,
            form: receipt.form,
            size: receipt.size,
            ..PLAIN
        }
    }
}
