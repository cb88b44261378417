// A call to the board, as a value.
// A question changes nothing, and is answered where it is put.
#[derive(Clone, Copy)]
pub enum Call<'a, Q> {
    Strike {
        book: usize,
        weekend: usize,
    },
    Reopen {
        book: usize,
        weekend: usize,
    },
    Pin {
        book: usize,
        weekend: usize,
    },
    Roster {
        parents: &'a [usize],
        classes: &'a [usize],
    },
    Bounds {
        weekend: usize,
        class: usize,
        lower: usize,
        upper: usize,
    },
    Limit {
        amount: Q,
    },
    HeadCheck {
        sheet: &'a [i8],
    },
    TollCheck {
        sheet: &'a [Q],
    },
}
