//! The clients of a transmitter.

ghost use Rattle.std.specs.Prelude.{◌≡◌, option_map};
ghost use Rattle.sig_calls.specs.Creating.{client_of};

use sig_json::Text;
use sig_terms::Client;

/// The client of a name, where one is configured.
pub(crate) fn client_named<'a>(clients: &'a [Client], name: &Text) -> Option<&'a Client>
    ensures { option_map (λ c. c.now) result ≡ client_of name.now clients.now }
{
    for client in clients {
        if &client.name == name {
            return Some(client);
        }
    }
    None
}
