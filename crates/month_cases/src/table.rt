// The tables of a month as a list writes them: more prices, imbalance or DM, so many times the same figure.
use caselist::rows::low;

// The figures so far are the first ones, as many as the length, where the table has so many.
#[derive(Drop)]
pub struct Table<'a, T> {
    places: &'a mut [T],
    length: u32,
}

impl<'a, T: Copy> Table<'a, T> {
    pub fn new(places: &'a mut [T]) -> Self {
        Table { places, length: 0 }
    }

    pub fn clear(&mut self) {
        self.length = 0;
    }

    // n more, all the same.
    pub fn add(&mut self, n: u64, figure: T) {
        let end = self.length % 65536 + low(n) % 65536;
        let first = self.length as usize;
        for place in self.places.iter_mut().take(end as usize).skip(first) {
            *place = figure;
        }
        self.length = end;
    }

    // The figures so far; none where there are more than places.
    pub fn figures(&self) -> Option<&[T]> {
        self.places.get(..self.length as usize)
    }
}

impl Table<'_, i32> {
    // n in all, each of which is its own place.
    pub fn count_up(&mut self, n: u64) {
        self.length = low(n) % 65536;
        for (place, i) in self.places.iter_mut().zip(0..self.length.cast_signed()) {
            *place = i;
        }
    }
}
