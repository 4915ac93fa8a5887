// Books in the condition that their calls ask for and keep.
use books::book::Book;
use std::marker::Model;

/// A book in its condition. A clause sees the book itself.
#[derive(Drop)]
pub struct SoundBook<B: Book> {
    pub book: B,
}

impl<B: Book> Model for SoundBook<B> {
    ghost Value = { B };

    ghost view = { λ s. s.book };

    ghost invariant = { λ s. B.Book.sound s.book };
}

/// A kept and a plain book that are asked the same.
#[derive(Drop)]
pub struct Books<K: Book, P: Book> {
    pub kept: SoundBook<K>,
    pub plain: SoundBook<P>,
}
