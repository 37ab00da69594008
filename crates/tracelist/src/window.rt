ghost use Rattle.std.specs.Prelude.{◌≡◌, OnOk};
ghost use Rattle.values.specs.HintSets.{numbers_of};
ghost use Rattle.counting.specs.declared.count_all.Counting.{Counting};
ghost use Rattle.tracelist.specs.Windows.{Last, empty, noted};

use counting::count_all::Counting;
use lines::trace_lines::ItemLine;
use std::alloc::{AllocError, Global};
use std::marker::Model;
use values::hint_numbers::HintNumbers;

/// The keys of a trace's last window so far, each at its request number.
#[derive(Drop)]
pub struct Window<K> {
    countings: Vec<Counting<K>>,
    size: usize,
}

impl<K> Model for Window<K> {
    ghost Value = { Last (Counting K) };

    ghost view = { λ w. record { size = w.size; items = w.countings.items } };
}

impl<K: Copy> Window<K> {
    /// No request yet, in windows of that size.
    pub fn new(heap: Global, size: usize) -> Window<K>
        ensures { result ≡ empty size }
    {
        Window {
            countings: Vec::new(heap),
            size,
        }
    }

    /// Notes a request. It starts a new window if this one is full.
    pub fn note(&mut self, counting: Counting<K>) -> Result<(), AllocError>
        ensures window { OnOk result (self.new ≡ noted self.old counting) }
        ensures size { self.new.size ≡ self.old.size }
    {
        if self.size <= self.countings.len() {
            self.countings.clear();
        }
        self.countings.push(counting)?;
        Ok(())
    }

    /// The requests of the window, in their order.
    pub fn countings(&self) -> &[Counting<K>]
        ensures { result.now ≡ self.now.items }
    {
        self.countings.as_slice()
    }
}

/// What a trace's last window counts. A table counts one kind of key, so each kind has its list.
#[derive(Drop)]
pub struct Windows {
    pub hints: Window<HintNumbers>,
    pub pages: Window<u32>,
}

impl Windows {
    /// No item yet, in windows of that size.
    pub fn new(heap: Global, size: usize) -> Windows
        ensures hints { result.hints ≡ empty size }
        ensures pages { result.pages ≡ empty size }
    {
        Windows {
            hints: Window::new(heap, size),
            pages: Window::new(heap, size),
        }
    }

    /// Notes an item at its request number.
    pub fn note(&mut self, item: ItemLine, number: u32) -> Result<(), AllocError>
        ensures hints { OnOk result (self.new.hints ≡ noted self.old.hints (record { key = numbers_of item.hints; number = number })) }
        ensures pages { OnOk result (self.new.pages ≡ noted self.old.pages (record { key = item.page; number = number })) }
        ensures sizes { (self.new.hints.size ≡ self.old.hints.size) × (self.new.pages.size ≡ self.old.pages.size) }
    {
        self.hints.note(Counting {
            key: item.hints.numbers(),
            number,
        })?;
        self.pages.note(Counting {
            key: item.page.into(),
            number,
        })
    }
}
