/// What a watch serves in a thread of its own: a link that came to its door, with its side; or an errand, which the server does
/// by itself, by a side that belongs to no link.
#[derive(Drop)]
pub enum Guest<L, S> {
    Link { link: L, side: S },
    Errand { side: S },
}
