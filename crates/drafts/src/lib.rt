// Images drafted by steps, for the test programs: an empty image, the counters and the rule of a crew, the same cost from one number to
// another, a byte. Two images may stand in one buffer, one behind the other; an image of an older version stands at the start of its own.
// A line may begin with v1, v2 or v3, the version that is drafted. Its numbers may have words between them; what follows a # is a remark.
#![tactic(auto)]

// Where the second image begins.
const SECOND: u16 = format::IMAGE_SIZE as u16;

// The version of the image that is drafted, and where it begins.
#[derive(Clone, Copy)]
pub struct Place {
    pub version: u8,
    pub base: u16,
}

// A line's step: the image that it is for, its letter, a small one, and its numbers, zeros behind the last.
#[derive(Clone, Copy)]
pub struct Step {
    pub place: Place,
    pub letter: u8,
    pub numbers: [u64; 16],
}

// A number with a digit more behind it; of twenty digits, the last number of 64 bits.
fn shifted(value: u64, digit: u8) -> u64 {
    if value < u64::MAX / 10 {
        10 * value + (digit % 10) as u64
    } else {
        u64::MAX
    }
}

// Where a line's step begins: behind the version, if there is one.
fn start_of(text: &[u8]) -> usize {
    if script::get(text, 0) == b'v' { 3 } else { 0 }
}

// The numbers of a line's step, zeros behind the last. The digits of a seventeenth stand behind those of the first, and so on.
pub fn numbers(text: &[u8]) -> [u64; 16] {
    let words = script::without_remark(text)
        .get(start_of(text)..)
        .unwrap_or(&[]);
    let mut n = [0; 16];
    script::each_digit(words, |k, digit| n[k % 16] = shifted(n[k % 16], digit));
    n
}

// A number of so many bytes, the lowest first, at a place.
fn put(input: &mut [u8], at: usize, size: usize, value: u64) {
    let bytes = value.to_le_bytes();
    for (byte, part) in input.iter_mut().skip(at).zip(bytes.iter().take(size)) {
        *byte = *part;
    }
}

// Numbers of so many bytes each, from a place on; the place behind them.
fn row(input: &mut [u8], at: usize, size: usize, n: &[u64]) -> usize {
    let mut next = at;
    for value in n {
        put(input, next, size, *value);
        next = next.saturating_add(size);
    }
    next
}

// What a line's first letters say: the version, which is the current one where none stands there, and by a capital the second image.
pub fn place_of(text: &[u8]) -> Place {
    let letter = script::get(text, 0);
    if letter == b'v' {
        return Place {
            version: script::get(text, 1) % 48,
            base: 0,
        };
    }
    let base = if letter.is_ascii_uppercase() {
        SECOND
    } else {
        0
    };
    Place {
        version: format::VERSION,
        base,
    }
}

// The letter of a line's step, a small one.
pub fn step_of(text: &[u8]) -> u8 {
    script::get(text, start_of(text)).to_ascii_lowercase()
}

impl Place {
    // Where a crew and a cost stand.
    fn group_at(self, group: u64) -> usize {
        let g = (group % 16) as usize;
        let size = match self.version {
            format::VERSION_1 => format::GROUP_SIZE_1,
            _ => format::GROUP_SIZE,
        };
        self.base as usize + format::GROUPS_AT + size * g
    }

    fn expense_at(self, expense: u64) -> usize {
        let c = (expense % 512) as usize;
        let at = match self.version {
            format::VERSION_1 => format::EXPENSES_AT_1 + format::EXPENSE_SIZE_1 * c,
            format::VERSION_2 => format::EXPENSES_AT + format::EXPENSE_SIZE_1 * c,
            _ => format::EXPENSES_AT + format::EXPENSE_SIZE * c,
        };
        self.base as usize + at
    }

    // An empty image, every user at home on the van of his number.
    fn empty(self, input: &mut [u8], van: u64) {
        let mut image = [0u8; format::IMAGE_SIZE];
        script::answer(val::val_empty(&mut image, van, &[0, 1, 2, 3, 4, 5, 6, 7]));
        for (byte, made) in input.iter_mut().skip(self.base as usize).zip(&image) {
            *byte = *made;
        }
    }

    // The eight counters of a crew and, where the version has one, its rule.
    fn members(self, input: &mut [u8], n: [u64; 16]) {
        let next = row(input, self.group_at(n[0]), 2, &n[1..9]);
        if self.version != format::VERSION_1 {
            row(input, next, 2, &n[9..10]);
        }
    }

    // A cost: payer, crew, deleted and bits; version and shares; and, where the version has one, its day.
    fn cost(self, input: &mut [u8], expense: u64, n: [u64; 16]) {
        let fields_end = row(input, self.expense_at(expense), 1, &n[2..6]);
        let shares_end = row(input, fields_end, 4, &n[6..15]);
        if self.version == format::VERSION {
            row(input, shares_end, 2, &n[15..16]);
        }
    }

    // The same cost from one number to another.
    fn costs(self, input: &mut [u8], n: [u64; 16]) {
        for c in n[0] % 512..=n[1] % 512 {
            self.cost(input, c, n);
        }
    }

    // An empty image of an older version, made of plain numbers since no call makes one: the header, zeros at least for the crews, and
    // payer 255 for the costs.
    fn empty_old(self, input: &mut [u8], van: u64) {
        let header = [
            86,
            65,
            76,
            self.version as u64,
            0,
            van,
            0,
            1,
            2,
            3,
            4,
            5,
            6,
            7,
            0,
            0,
        ];
        row(input, 0, 1, &header);
        if let Some(crews) = input.get_mut(format::GROUPS_AT..format::EXPENSES_AT) {
            crews.fill(0);
        }
        self.costs(input, [0, 511, 255, 0, 0, 0, 0, 0, 0, 0, 0, 0, 0, 0, 0, 0]);
    }

    // An empty image of the version that is drafted.
    fn empty_of(self, input: &mut [u8], van: u64) {
        if self.version == format::VERSION {
            self.empty(input, van);
        } else {
            self.empty_old(input, van);
        }
    }
}

impl Step {
    // The step of a line.
    pub fn of(text: &[u8]) -> Self {
        Step {
            place: place_of(text),
            letter: step_of(text),
            numbers: numbers(text),
        }
    }

    // The step done on the image of its place.
    pub fn draft(self, input: &mut [u8]) {
        let place = self.place;
        let n = self.numbers;
        match self.letter {
            b'e' => place.empty_of(input, n[0]),
            b'm' => place.members(input, n),
            b'c' => place.costs(input, n),
            b'b' => put(input, n[0] as usize, 1, n[1]),
            _ => {}
        }
    }
}
