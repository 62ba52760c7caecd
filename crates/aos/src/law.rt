// A law of calls.

ghost use Rattle.aos.specs.Promises.{ProbesDontMatter};

/// Without `--watch` no byte and no status of a replay depends on the probes.
pub fn probes_dont_matter()
    ensures { ProbesDontMatter }
{}
