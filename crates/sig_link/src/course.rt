use sig_http::HttpRefusal;

// What came of a request: the routes refused it, or it made a turn.
#[derive(Drop)]
pub enum Course<T> {
    Refused(HttpRefusal),
    Turned(T),
}
