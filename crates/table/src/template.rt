// A template that was judged: its words, and what is known of them. Head, segments and bytes are read without a test.
ghost use Rattle.std.specs.Prelude.{◌≡◌, ◌<◌, ◌≤◌, length};
ghost use Rattle.table.specs.Limits.{max_segments, max_templates, static_limit};
ghost use Rattle.table.specs.Templates.{static_size};
ghost use Rattle.table.specs.Words.{template_words, table_words, head_of, segment_at, byte_at, template_of, count_in, words_at};
ghost use Rattle.table.specs.Sound.{UsableTemplate, Usable};
ghost use Rattle.table.specs.Props.{UsableTemplate-prop};

use crate::{Head, Segment, TEMPLATE_WORDS};

// The words of a usable template, where they lie in a table.
#[derive(Clone, Copy)]
pub struct Template<'a> {
    pub words: &'a [u64],
    pub ghost whole: { template_words ≤ length words.now },
    pub ghost usable: { UsableTemplate words.now } by { UsableTemplate-prop words.now },
}

impl<'a> Template<'a> {
    pub fn head(self) -> Head
        ensures { result ≡ head_of self.entry.words.now }
    {
        crate::judged_head(self.words)
    }

    // Its segment j.
    pub fn segment(self, j: usize) -> Segment
        requires { j < max_segments }
        ensures { result ≡ segment_at self.entry.words.now j }
    {
        crate::segment_at(self.words, j)
    }

    // Its static byte of position p.
    pub fn byte(self, p: usize) -> u8
        requires { p < static_limit }
        ensures { result ≡ byte_at self.entry.words.now p }
    {
        crate::byte_at(self.words, p)
    }

    // How many static bytes it holds.
    pub fn static_size(self) -> usize
        ensures { (result ≡ static_size (template_of self.entry.words.now).pieces) × (result ≤ static_limit) }
    {
        let n = self.head().count;
        let mut size: usize = 0;
        for j in 0..n {
            size += self.segment(j).length;
        }
        size
    }
}

// Template i of a table that was judged.
pub fn template_at(table: &[u64], i: usize) -> Template<'_>
    requires table_words_in_bounds { table_words ≤ length table.now }
    requires usable { Usable table.now }
    requires i_in_use { i < count_in table.now }
    ensures { result.words.now ≡ words_at table.now i }
{
    Template {
        words: words_at(table, i),
    }
}

// The words of template i of a table.
pub(crate) fn words_at(table: &[u64], i: usize) -> &[u64]
    requires table_words_in_bounds { table_words ≤ length table.now }
    requires i_in_table { i < max_templates }
    ensures words { result.now ≡ words_at table.now i }
    ensures whole { template_words ≤ length result.now }
{
    let from = 1 + i * TEMPLATE_WORDS;
    let end = from + TEMPLATE_WORDS;
    &table[from..end]
}
