//! Subjects and their faults move between threads and may be shared by them, which the check of these calls shows.

use crate::{Format, Member, Plain, PlainFormat, Simple, Subject, SubjectFault};
use sig_json::crosses_threads;

fn types_cross() {
    crosses_threads::<Subject>();
    crosses_threads::<Member>();
    crosses_threads::<Simple>();
    crosses_threads::<Plain>();
    crosses_threads::<Format>();
    crosses_threads::<PlainFormat>();
    crosses_threads::<SubjectFault>();
}
