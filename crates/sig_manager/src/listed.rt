use sig_json::Text;
use sig_terms::Want;

/// A stream as its transmitter lists it.
pub struct Listed {
    /// Its name.
    pub id: Text,
    /// What its receiver called it, where that is a text.
    pub description: Option<Text>,
    /// What it is, as a receiver would want it; none where it can't be read as such.
    pub want: Option<Want>,
}

impl Drop for Listed {
    fn drop(self) {
        let Listed {
            id,
            description,
            want,
        } = self;
        drop(id);
        drop(description);
        drop(want);
    }
}
