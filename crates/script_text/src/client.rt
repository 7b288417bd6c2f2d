//! What a client can do.

ghost use Rattle.std.specs.Prelude.{◌≡◌};
ghost use Rattle.script_text.specs.Client.{is_client_event};

use plan_runs::Event;

/// Whether a client can cause the event: a put or get starts, a node goes down or up.
pub fn is_client_event(event: &Event) -> bool
    ensures { result ≡ is_client_event event.now }
{
    match event {
        Event::StartPut(_, _, _, _) | Event::StartGet(_) | Event::Down(_) | Event::Up(_) => true,
        _ => false,
    }
}
