use std::sync::{Condvar, Mutex, Wait};

/// The numbers of links that have ended and that nobody has asked for yet.
#[derive(Drop)]
pub struct Endings {
    numbers: Mutex<Vec<u32>>,
    told: Condvar,
}

impl Endings {
    /// None yet, in this room.
    pub fn new(numbers: Vec<u32>) -> Endings {
        Endings {
            numbers: Mutex::new(numbers),
            told: Condvar::new(),
        }
    }

    /// Tells that the link of this number has ended. There is room for as many as are served at once.
    pub fn tell<R: Wait>(&self, rt: &R, number: u32) {
        let mut numbers = self.numbers.lock(rt);
        let list = &mut *numbers;
        if list.len() < list.capacity() {
            list.push_reserved(number);
        }
        self.told.notify_one();
    }

    /// The number of a link that has ended, where one has.
    pub fn next<R: Wait>(&self, rt: &R) -> Option<u32> {
        self.numbers.lock(rt).pop()
    }

    /// The number of a link that has ended. It waits until one has.
    pub fn wait<R: Wait>(&self, rt: &R) -> u32 {
        let mut numbers = self.numbers.lock(rt);
        for _ in rt.forever() {
            let list = &mut *numbers;
            if let Some(number) = list.pop() {
                return number;
            }
            numbers = self.told.wait(rt, numbers);
        }
        unreachable!()
    }
}
