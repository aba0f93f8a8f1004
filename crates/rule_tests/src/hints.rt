//! That an index finds accounts by its hints, which no contract says: it answers as the book under it in any case.

#[cfg(test)]
mod tests {
    use accounts::book::AccountBook;
    use accounts::record::Record;
    use books::indexed::IndexedBook;
    use books::table::TableBook;
    use std::cell::Cell;
    use std::process::Abort;

    // A book that counts how often it is searched from its first record on.
    #[derive(Drop)]
    struct Counted<'a, B> {
        book: &'a mut B,
        searches: Cell<usize>,
    }

    impl<'a, B: AccountBook> AccountBook for Counted<'a, B> {
        ghost contents = { λ c. B.contents c.book.now };

        ghost sound = { λ c. B.sound c.book.now };

        ghost same_rest = { λ a b. B.same_rest a.book.now b.book.now };

        ghost proper = { λ c s. B.proper c.book.now s };

        ghost rest_stays = { λ c. B.rest_stays c.book.now };

        ghost rest_follows = { λ a b c h k. B.rest_follows a.book.now b.book.now c.book.now h k };

        fn count(&self) -> usize {
            self.book.count()
        }

        fn capacity(&self) -> usize {
            self.book.capacity()
        }

        fn get(&self, place: usize) -> Option<Record> {
            self.book.get(place)
        }

        fn search(&self, account: u64) -> Option<usize> {
            self.searches.set(self.searches.get().wrapping_add(1));
            self.book.search(account)
        }

        fn add(&mut self, new: Record) -> bool {
            self.book.add(new)
        }

        fn replace(&mut self, place: usize, new: Record) -> bool {
            self.book.replace(place, new)
        }
    }

    fn of(account: u64) -> Record {
        Record {
            account,
            percentage: 10_000,
            savings: 1_000,
            class: 2,
            ..Record::default()
        }
    }

    // A book of four accounts has an index. A fifth account joins through the index, and all five are sought and found
    // at their places: answers how many of these searches went on to the book.
    fn searches(rt: &impl Abort, hints: &mut [Option<usize>]) -> usize {
        let mut table = [Record::default(); 5];
        let mut book = TableBook::new(&mut table);
        for account in [20, 21, 84, 7] {
            assert!(rt; book.add(of(account)));
        }
        let mut counted = Counted {
            book: &mut book,
            searches: Cell::new(0),
        };
        let mut indexed = IndexedBook::new(&mut counted, hints);
        assert!(rt; indexed.add(of(148)));
        for (place, account) in [20, 21, 84, 7, 148].iter().enumerate() {
            assert_eq!(rt; indexed.search(*account), Some(place), "{account}");
        }
        counted.searches.get()
    }

    // The numbers 20, 84 and 148 begin at one slot of 64, so that the latter two are noted behind the first, past 21.
    #[test]
    fn accounts_are_found_by_hints(rt: HostRuntime) {
        assert_eq!(rt; searches(&rt, &mut [None; 64]), 0);
        // what the slots held before is lost
        assert_eq!(rt; searches(&rt, &mut [Some(0); 64]), 0);
        assert_eq!(rt; searches(&rt, &mut [Some(9); 64]), 0);
    }

    // Where slots are wanting, those accounts that have no hint are searched for.
    #[test]
    fn others_are_searched_for(rt: HostRuntime) {
        assert_eq!(rt; searches(&rt, &mut [None; 3]), 2);
        assert_eq!(rt; searches(&rt, &mut []), 5);
    }
}
