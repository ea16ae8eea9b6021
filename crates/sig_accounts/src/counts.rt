//! How many streams each client ever made.

ghost use Rattle.std.specs.Prelude.{◌≡◌, [], ◌∷◌, ◌++◌, ◌+◌, ◌<◌, ◌^◌, IsTrue, false, vec_len, vec_capacity};
ghost use Rattle.sig_history.specs.Streams as streams;

use crate::counted::Counted;
use sig_json::Text;

/// How many streams a client ever made.
pub fn created_by(created: &[Counted], client: &Text) -> u64
    ensures { result ≡ streams.created_by client.now created.now }
{
    for counted in created {
        if counted.client() == client {
            return counted.count();
        }
    }
    0
}

/// One more stream of this client, with room for its count.
pub fn count_one(created: &mut Vec<Counted>, client: Text)
    requires room { vec_len created.old < vec_capacity created.old }
    requires number { streams.created_by client created.old.items + 1 < 2 ^ 64 }
    ensures { created.new.items ≡ streams.count_one client created.old.items }
{
    if count_again(created.as_mut_slice(), &client) {
        return;
    }
    // There is room, so the push keeps the count.
    let _ = created.push(Counted::first(client));
}

// Counts one more of this client, where it has a count.
fn count_again(created: &mut [Counted], client: &Text) -> bool
    requires { streams.created_by client.now created.old + 1 < 2 ^ 64 }
    ensures found { IsTrue result → created.new ≡ streams.count_one client.now created.old }
    ensures absent { result ≡ false → created.new ≡ created.old }
    ensures last { result ≡ false → streams.count_one client.now created.old ≡ created.old ++ record { client = client.now; count = 1 } ∷ [] }
{
    for counted in created.iter_mut() {
        if counted.client() == client {
            counted.add();
            return true;
        }
    }
    false
}
