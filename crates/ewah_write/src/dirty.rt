// Words that may stand as dirty words in a body in canonical form.
ghost use Rattle.std.specs.Prelude.{◌≡◌};
ghost use Rattle.ewah_write.specs.Mixed.{all_mixed};

// Whether each of the words is a mixed segment.
#[tactic(auto, unfolding(crate::specs::Mixed::is_mixed))]
pub fn all_mixed(words: &[u32]) -> bool
    ensures { result ≡ all_mixed words.now }
{
    words.iter().all(|x| *x != 0 && *x != 0xFFFF_FFFF)
}
