/// Where the bytes of a key and of a value lie in a `ByteLog`: in one page, the value's after the key's.
#[derive(Clone, Copy)]
pub struct Span {
    // The page, and the place in it at which the key begins.
    pub(crate) page: u32,
    pub(crate) start: u16,
    pub(crate) key_len: u16,
    pub(crate) value_len: u16,
}

const _: () = prove!(size_of::<Span>() == 12);
