// The reader of a day file carries the lent bytes and how far it has come (01, 'Day file'). A step takes a word and gives the reader
// further on; a block's head is two steps of one reader, a line three.
// The methods are thin: `found_at`, on a slice and a number, does the decoding, and callers without a reader, as a walk by a cursor,
// use `words_from`.
ghost use Rattle.std.specs.Prelude.{◌≡◌};
ghost use Rattle.file_walk.specs.Read.{found_at, taken_by, words_by, words_from};

#[derive(Clone, Copy)]
pub struct Reader<'a> {
    pub bytes: &'a [u8],
    pub at: usize,
}

// The whole word at a byte of a slice, if there is one.
pub fn found_at(bytes: &[u8], at: usize) -> Option<u32>
    ensures { result ≡ found_at bytes.now at }
{
    let size = bytes.len();
    if size < 4 || size - 4 < at {
        return None;
    }
    Some(word_bytes::word_at(bytes, at))
}

impl<'a> Reader<'a> {
    // A reader that has come to a byte.
    pub fn new(bytes: &'a [u8], at: usize) -> Reader<'a>
        ensures { (result.bytes ≡ bytes.entry) × (result.at ≡ at) }
    {
        Reader { bytes, at }
    }

    // How far a reader has come.
    pub fn come(self) -> usize
        ensures { result ≡ self.entry.at }
    {
        self.at
    }

    // The next word, and the reader past it; at the end none, and the reader where it was.
    pub fn take(self) -> (Reader<'a>, Option<u32>)
        ensures { result ≡ taken_by self.entry }
    {
        let word = found_at(self.bytes, self.at);
        let at = match word {
            Some(_) => self.at + 4,
            None => self.at,
        };
        let reader = Reader {
            bytes: self.bytes,
            at,
        };
        (reader, word)
    }

    // The next words, and the reader past them: two are a block's head, three a line.
    pub fn take_words<const N: usize>(self) -> (Reader<'a>, [Option<u32>; N])
        ensures { result ≡ words_by N self.entry }
    {
        let mut reader = self;
        let mut words = [None; N];
        for word in &mut words {
            let (next, taken) = reader.take();
            reader = next;
            *word = taken;
        }
        (reader, words)
    }
}

// The words that a reader of these bytes takes at a byte. Its parameters are plain, so that callers need no reader.
pub fn words_from<const N: usize>(bytes: &[u8], at: usize) -> [Option<u32>; N]
    ensures { result ≡ words_from N bytes.now at }
{
    let (_, words) = Reader::new(bytes, at).take_words();
    words
}
