//! Texts that together have each struct and each variant, and the JSON of their trees. The expected
//! texts were made from the grammar and the rules of `docs/JSON.md` by other means than this code.

use std::alloc::{AllocError, Global};
use wac_examples::to_json;
use wac_parser::Error;

/// Texts, and the JSON of the tree of each.
pub(crate) static TEXTS: [(&str, &str); 24] = [
    // directive alone
    (
        "package a:b;",
        r#"{"directive":{"package":{"name":"a:b","span":{"length":3,"offset":8},"string":"a:b","version":null}},"docs":[],"statements":[]}"#,
    ),
    // docs version and target
    (
        "/** a */\n/// b\npackage a:b@1.2.3-rc.1+build targets c:d/e/f@0.2.0;",
        r#"{"directive":{"package":{"name":"a:b","span":{"length":20,"offset":23},"string":"a:b@1.2.3-rc.1+build","version":"1.2.3-rc.1+build"},"targets":{"name":"c:d","segments":"e/f","span":{"length":13,"offset":52},"string":"c:d/e/f@0.2.0","version":"0.2.0"}},"docs":[{"comment":"a","span":{"length":8,"offset":0}},{"comment":"b","span":{"length":5,"offset":9}}],"statements":[]}"#,
    ),
    // let statement
    (
        "package a:b; let x = y.z;",
        r#"{"directive":{"package":{"name":"a:b","span":{"length":3,"offset":8},"string":"a:b","version":null}},"docs":[],"statements":[{"Let":{"docs":[],"expr":{"postfix":[{"access":{"id":{"span":{"length":1,"offset":23},"string":"z"},"span":{"length":2,"offset":22}}}],"primary":{"ident":{"span":{"length":1,"offset":21},"string":"y"}},"span":{"length":3,"offset":21}},"id":{"span":{"length":1,"offset":17},"string":"x"}}}]}"#,
    ),
    // all expressions
    (
        "package a:b; /// d\nlet x = (y)[\"q\"].z; let %v = new c:d@1.0.0 { x, ...y, n: z, \"s/t\": (x.a), ... }; let w = new c:d {};",
        r#"{"directive":{"package":{"name":"a:b","span":{"length":3,"offset":8},"string":"a:b","version":null}},"docs":[],"statements":[{"Let":{"docs":[{"comment":"d","span":{"length":5,"offset":13}}],"expr":{"postfix":[{"namedAccess":{"span":{"length":5,"offset":30},"string":{"span":{"length":3,"offset":31},"value":"q"}}},{"access":{"id":{"span":{"length":1,"offset":36},"string":"z"},"span":{"length":2,"offset":35}}}],"primary":{"nested":{"inner":{"postfix":[],"primary":{"ident":{"span":{"length":1,"offset":28},"string":"y"}},"span":{"length":1,"offset":28}},"span":{"length":3,"offset":27}}},"span":{"length":10,"offset":27}},"id":{"span":{"length":1,"offset":23},"string":"x"}}},{"Let":{"docs":[],"expr":{"postfix":[],"primary":{"new":{"arguments":[{"inferred":{"span":{"length":1,"offset":64},"string":"x"}},{"spread":{"span":{"length":1,"offset":70},"string":"y"}},{"named":{"expr":{"postfix":[],"primary":{"ident":{"span":{"length":1,"offset":76},"string":"z"}},"span":{"length":1,"offset":76}},"name":{"ident":{"span":{"length":1,"offset":73},"string":"n"}}}},{"named":{"expr":{"postfix":[],"primary":{"nested":{"inner":{"postfix":[{"access":{"id":{"span":{"length":1,"offset":89},"string":"a"},"span":{"length":2,"offset":88}}}],"primary":{"ident":{"span":{"length":1,"offset":87},"string":"x"}},"span":{"length":3,"offset":87}},"span":{"length":5,"offset":86}}},"span":{"length":5,"offset":86}},"name":{"string":{"span":{"length":5,"offset":79},"value":"s/t"}}}},{"fill":{"length":3,"offset":93}}],"package":{"name":"c:d","span":{"length":9,"offset":52},"string":"c:d@1.0.0","version":"1.0.0"},"span":{"length":50,"offset":48}}},"span":{"length":50,"offset":48}},"id":{"span":{"length":2,"offset":43},"string":"v"}}},{"Let":{"docs":[],"expr":{"postfix":[],"primary":{"new":{"arguments":[],"package":{"name":"c:d","span":{"length":3,"offset":112},"string":"c:d","version":null},"span":{"length":10,"offset":108}}},"span":{"length":10,"offset":108}},"id":{"span":{"length":1,"offset":104},"string":"w"}}}]}"#,
    ),
    // exports
    (
        "package a:b; /// d\nexport x; export x.y...; export x as n; export (x[\"q\"]) as \"n:m/o\";",
        r#"{"directive":{"package":{"name":"a:b","span":{"length":3,"offset":8},"string":"a:b","version":null}},"docs":[],"statements":[{"Export":{"docs":[{"comment":"d","span":{"length":5,"offset":13}}],"expr":{"postfix":[],"primary":{"ident":{"span":{"length":1,"offset":26},"string":"x"}},"span":{"length":1,"offset":26}},"options":"none"}},{"Export":{"docs":[],"expr":{"postfix":[{"access":{"id":{"span":{"length":1,"offset":38},"string":"y"},"span":{"length":2,"offset":37}}}],"primary":{"ident":{"span":{"length":1,"offset":36},"string":"x"}},"span":{"length":3,"offset":36}},"options":{"spread":{"length":3,"offset":39}}}},{"Export":{"docs":[],"expr":{"postfix":[],"primary":{"ident":{"span":{"length":1,"offset":51},"string":"x"}},"span":{"length":1,"offset":51}},"options":{"rename":{"ident":{"span":{"length":1,"offset":56},"string":"n"}}}}},{"Export":{"docs":[],"expr":{"postfix":[],"primary":{"nested":{"inner":{"postfix":[{"namedAccess":{"span":{"length":5,"offset":68},"string":{"span":{"length":3,"offset":69},"value":"q"}}}],"primary":{"ident":{"span":{"length":1,"offset":67},"string":"x"}},"span":{"length":6,"offset":67}},"span":{"length":8,"offset":66}}},"span":{"length":8,"offset":66}},"options":{"rename":{"string":{"span":{"length":7,"offset":78},"value":"n:m/o"}}}}}]}"#,
    ),
    // imports
    (
        "package a:b; /// d\nimport x: func(); import y as n: c:d/e@1.0.0; import z as \"n:m/o\": interface { /// f\nf: func(); g: async func(a: u8, b: t) -> u8; h: t; }; import w: i;",
        r#"{"directive":{"package":{"name":"a:b","span":{"length":3,"offset":8},"string":"a:b","version":null}},"docs":[],"statements":[{"Import":{"docs":[{"comment":"d","span":{"length":5,"offset":13}}],"id":{"span":{"length":1,"offset":26},"string":"x"},"name":null,"ty":{"func":{"isAsync":false,"params":[],"results":"empty"}}}},{"Import":{"docs":[],"id":{"span":{"length":1,"offset":44},"string":"y"},"name":{"ident":{"span":{"length":1,"offset":49},"string":"n"}},"ty":{"package":{"name":"c:d","segments":"e","span":{"length":11,"offset":52},"string":"c:d/e@1.0.0","version":"1.0.0"}}}},{"Import":{"docs":[],"id":{"span":{"length":1,"offset":72},"string":"z"},"name":{"string":{"span":{"length":7,"offset":77},"value":"n:m/o"}},"ty":{"interface":{"items":[{"export":{"docs":[{"comment":"f","span":{"length":5,"offset":98}}],"id":{"span":{"length":1,"offset":104},"string":"f"},"ty":{"func":{"isAsync":false,"params":[],"results":"empty"}}}},{"export":{"docs":[],"id":{"span":{"length":1,"offset":115},"string":"g"},"ty":{"func":{"isAsync":true,"params":[{"id":{"span":{"length":1,"offset":129},"string":"a"},"ty":{"u8":{"length":2,"offset":132}}},{"id":{"span":{"length":1,"offset":136},"string":"b"},"ty":{"ident":{"span":{"length":1,"offset":139},"string":"t"}}}],"results":{"scalar":{"u8":{"length":2,"offset":145}}}}}}},{"export":{"docs":[],"id":{"span":{"length":1,"offset":149},"string":"h"},"ty":{"ident":{"span":{"length":1,"offset":152},"string":"t"}}}}]}}}},{"Import":{"docs":[],"id":{"span":{"length":1,"offset":165},"string":"w"},"name":null,"ty":{"ident":{"span":{"length":1,"offset":168},"string":"i"}}}}]}"#,
    ),
    // tuple
    (
        "package a:b; type t = tuple<u8>;",
        r#"{"directive":{"package":{"name":"a:b","span":{"length":3,"offset":8},"string":"a:b","version":null}},"docs":[],"statements":[{"Type":{"type":{"alias":{"docs":[],"id":{"span":{"length":1,"offset":18},"string":"t"},"kind":{"type":{"tuple":[[{"u8":{"length":2,"offset":28}}],{"length":9,"offset":22}]}}}}}}]}"#,
    ),
    // keyword types
    (
        "package a:b; type t = tuple<u8, s8, u16, s16, u32, s32, u64, s64, f32, f64, char, bool, string, error-context, u>;",
        r#"{"directive":{"package":{"name":"a:b","span":{"length":3,"offset":8},"string":"a:b","version":null}},"docs":[],"statements":[{"Type":{"type":{"alias":{"docs":[],"id":{"span":{"length":1,"offset":18},"string":"t"},"kind":{"type":{"tuple":[[{"u8":{"length":2,"offset":28}},{"s8":{"length":2,"offset":32}},{"u16":{"length":3,"offset":36}},{"s16":{"length":3,"offset":41}},{"u32":{"length":3,"offset":46}},{"s32":{"length":3,"offset":51}},{"u64":{"length":3,"offset":56}},{"s64":{"length":3,"offset":61}},{"f32":{"length":3,"offset":66}},{"f64":{"length":3,"offset":71}},{"char":{"length":4,"offset":76}},{"bool":{"length":4,"offset":82}},{"string":{"length":6,"offset":88}},{"errorContext":{"length":13,"offset":96}},{"ident":{"span":{"length":1,"offset":111},"string":"u"}}],{"length":91,"offset":22}]}}}}}}]}"#,
    ),
    // bracketed types
    (
        "package a:b; type t = tuple<list<u8>, option<t>, result, result<u8>, result<_, u8>, result<u8, list<u8>>, result<_, _>, borrow<r>, stream, stream<u8>, future, future<u8>, tuple<tuple<u8>>>;",
        r#"{"directive":{"package":{"name":"a:b","span":{"length":3,"offset":8},"string":"a:b","version":null}},"docs":[],"statements":[{"Type":{"type":{"alias":{"docs":[],"id":{"span":{"length":1,"offset":18},"string":"t"},"kind":{"type":{"tuple":[[{"list":[{"u8":{"length":2,"offset":33}},{"length":8,"offset":28}]},{"option":[{"ident":{"span":{"length":1,"offset":45},"string":"t"}},{"length":9,"offset":38}]},{"result":{"err":null,"ok":null,"span":{"length":6,"offset":49}}},{"result":{"err":null,"ok":{"u8":{"length":2,"offset":64}},"span":{"length":10,"offset":57}}},{"result":{"err":{"u8":{"length":2,"offset":79}},"ok":null,"span":{"length":13,"offset":69}}},{"result":{"err":{"list":[{"u8":{"length":2,"offset":100}},{"length":8,"offset":95}]},"ok":{"u8":{"length":2,"offset":91}},"span":{"length":20,"offset":84}}},{"result":{"err":null,"ok":null,"span":{"length":12,"offset":106}}},{"borrow":[{"span":{"length":1,"offset":127},"string":"r"},{"length":9,"offset":120}]},{"stream":[null,{"length":6,"offset":131}]},{"stream":[{"u8":{"length":2,"offset":146}},{"length":10,"offset":139}]},{"future":[null,{"length":6,"offset":151}]},{"future":[{"u8":{"length":2,"offset":166}},{"length":10,"offset":159}]},{"tuple":[[{"tuple":[[{"u8":{"length":2,"offset":183}}],{"length":9,"offset":177}]}],{"length":16,"offset":171}]}],{"length":166,"offset":22}]}}}}}}]}"#,
    ),
    // results with names
    (
        "package a:b; type t = func() -> (a: u8, b: t);",
        r#"{"directive":{"package":{"name":"a:b","span":{"length":3,"offset":8},"string":"a:b","version":null}},"docs":[],"statements":[{"Type":{"type":{"alias":{"docs":[],"id":{"span":{"length":1,"offset":18},"string":"t"},"kind":{"func":{"isAsync":false,"params":[],"results":{"named":[{"id":{"span":{"length":1,"offset":33},"string":"a"},"ty":{"u8":{"length":2,"offset":36}}},{"id":{"span":{"length":1,"offset":40},"string":"b"},"ty":{"ident":{"span":{"length":1,"offset":43},"string":"t"}}}]}}}}}}}]}"#,
    ),
    // declarations
    (
        "package a:b; /// v\nvariant v { /// a\na, b(u8), } /// r\nrecord r { /// x\nx: u8, y: list<u8> } /// f\nflags f { /// a\na, b } /// e\nenum e { /// a\na, b } /// t\ntype t = func(); type s = u8;",
        r#"{"directive":{"package":{"name":"a:b","span":{"length":3,"offset":8},"string":"a:b","version":null}},"docs":[],"statements":[{"Type":{"type":{"variant":{"cases":[{"docs":[{"comment":"a","span":{"length":5,"offset":31}}],"id":{"span":{"length":1,"offset":37},"string":"a"},"ty":null},{"docs":[],"id":{"span":{"length":1,"offset":40},"string":"b"},"ty":{"u8":{"length":2,"offset":42}}}],"docs":[{"comment":"v","span":{"length":5,"offset":13}}],"id":{"span":{"length":1,"offset":27},"string":"v"}}}}},{"Type":{"type":{"record":{"docs":[{"comment":"r","span":{"length":5,"offset":49}}],"fields":[{"docs":[{"comment":"x","span":{"length":5,"offset":66}}],"id":{"span":{"length":1,"offset":72},"string":"x"},"ty":{"u8":{"length":2,"offset":75}}},{"docs":[],"id":{"span":{"length":1,"offset":79},"string":"y"},"ty":{"list":[{"u8":{"length":2,"offset":87}},{"length":8,"offset":82}]}}],"id":{"span":{"length":1,"offset":62},"string":"r"}}}}},{"Type":{"type":{"flags":{"docs":[{"comment":"f","span":{"length":5,"offset":93}}],"flags":[{"docs":[{"comment":"a","span":{"length":5,"offset":109}}],"id":{"span":{"length":1,"offset":115},"string":"a"}},{"docs":[],"id":{"span":{"length":1,"offset":118},"string":"b"}}],"id":{"span":{"length":1,"offset":105},"string":"f"}}}}},{"Type":{"type":{"enum":{"cases":[{"docs":[{"comment":"a","span":{"length":5,"offset":137}}],"id":{"span":{"length":1,"offset":143},"string":"a"}},{"docs":[],"id":{"span":{"length":1,"offset":146},"string":"b"}}],"docs":[{"comment":"e","span":{"length":5,"offset":122}}],"id":{"span":{"length":1,"offset":133},"string":"e"}}}}},{"Type":{"type":{"alias":{"docs":[{"comment":"t","span":{"length":5,"offset":150}}],"id":{"span":{"length":1,"offset":161},"string":"t"},"kind":{"func":{"isAsync":false,"params":[],"results":"empty"}}}}}},{"Type":{"type":{"alias":{"docs":[],"id":{"span":{"length":1,"offset":178},"string":"s"},"kind":{"type":{"u8":{"length":2,"offset":182}}}}}}}]}"#,
    ),
    // interface
    (
        "package a:b; /// i\ninterface i { /// u\nuse c:d/e@1.0.0.{t, u as %v}; use j.{}; /// r\nresource r { /// c\nconstructor(x: u8); constructor(); /// m\nm: static func() -> u8; n: async func() ->; } resource s; variant v { a } record q { x: u8 } flags f { a } enum e { a } type t = u8; /// f\nf: func(); g: h; }",
        r#"{"directive":{"package":{"name":"a:b","span":{"length":3,"offset":8},"string":"a:b","version":null}},"docs":[],"statements":[{"Type":{"interface":{"docs":[{"comment":"i","span":{"length":5,"offset":13}}],"id":{"span":{"length":1,"offset":29},"string":"i"},"items":[{"use":{"docs":[{"comment":"u","span":{"length":5,"offset":33}}],"items":[{"asId":null,"id":{"span":{"length":1,"offset":56},"string":"t"}},{"asId":{"span":{"length":2,"offset":64},"string":"v"},"id":{"span":{"length":1,"offset":59},"string":"u"}}],"path":{"package":{"name":"c:d","segments":"e","span":{"length":11,"offset":43},"string":"c:d/e@1.0.0","version":"1.0.0"}}}},{"use":{"docs":[],"items":[],"path":{"ident":{"span":{"length":1,"offset":73},"string":"j"}}}},{"type":{"resource":{"docs":[{"comment":"r","span":{"length":5,"offset":79}}],"id":{"span":{"length":1,"offset":94},"string":"r"},"methods":[{"constructor":{"docs":[{"comment":"c","span":{"length":5,"offset":98}}],"params":[{"id":{"span":{"length":1,"offset":116},"string":"x"},"ty":{"u8":{"length":2,"offset":119}}}],"span":{"length":11,"offset":104}}},{"constructor":{"docs":[],"params":[],"span":{"length":11,"offset":124}}},{"method":{"docs":[{"comment":"m","span":{"length":5,"offset":139}}],"id":{"span":{"length":1,"offset":145},"string":"m"},"isStatic":true,"ty":{"isAsync":false,"params":[],"results":{"scalar":{"u8":{"length":2,"offset":165}}}}}},{"method":{"docs":[],"id":{"span":{"length":1,"offset":169},"string":"n"},"isStatic":false,"ty":{"isAsync":true,"params":[],"results":"empty"}}}]}}},{"type":{"resource":{"docs":[],"id":{"span":{"length":1,"offset":200},"string":"s"},"methods":[]}}},{"type":{"variant":{"cases":[{"docs":[],"id":{"span":{"length":1,"offset":215},"string":"a"},"ty":null}],"docs":[],"id":{"span":{"length":1,"offset":211},"string":"v"}}}},{"type":{"record":{"docs":[],"fields":[{"docs":[],"id":{"span":{"length":1,"offset":230},"string":"x"},"ty":{"u8":{"length":2,"offset":233}}}],"id":{"span":{"length":1,"offset":226},"string":"q"}}}},{"type":{"flags":{"docs":[],"flags":[{"docs":[],"id":{"span":{"length":1,"offset":248},"string":"a"}}],"id":{"span":{"length":1,"offset":244},"string":"f"}}}},{"type":{"enum":{"cases":[{"docs":[],"id":{"span":{"length":1,"offset":261},"string":"a"}}],"docs":[],"id":{"span":{"length":1,"offset":257},"string":"e"}}}},{"type":{"alias":{"docs":[],"id":{"span":{"length":1,"offset":270},"string":"t"},"kind":{"type":{"u8":{"length":2,"offset":274}}}}}},{"export":{"docs":[{"comment":"f","span":{"length":5,"offset":278}}],"id":{"span":{"length":1,"offset":284},"string":"f"},"ty":{"func":{"isAsync":false,"params":[],"results":"empty"}}}},{"export":{"docs":[],"id":{"span":{"length":1,"offset":295},"string":"g"},"ty":{"ident":{"span":{"length":1,"offset":298},"string":"h"}}}}]}}}]}"#,
    ),
    // world
    (
        "package a:b; /// w\nworld w { use j.{t}; resource r; variant v { a } record q { x: u8 } flags f { a } enum e { a } type t = u8; /// i\nimport c:d/e; import f: func(); import g: interface { h: k; }; import i; import h: t; /// e\nexport c:d/e@1.0.0; export f: func(); export g: interface { }; export i; export h: t; /// n\ninclude x; include c:d/v with { a as b, %c as d }; include y with {}; }",
        r#"{"directive":{"package":{"name":"a:b","span":{"length":3,"offset":8},"string":"a:b","version":null}},"docs":[],"statements":[{"Type":{"world":{"docs":[{"comment":"w","span":{"length":5,"offset":13}}],"id":{"span":{"length":1,"offset":25},"string":"w"},"items":[{"use":{"docs":[],"items":[{"asId":null,"id":{"span":{"length":1,"offset":36},"string":"t"}}],"path":{"ident":{"span":{"length":1,"offset":33},"string":"j"}}}},{"type":{"resource":{"docs":[],"id":{"span":{"length":1,"offset":49},"string":"r"},"methods":[]}}},{"type":{"variant":{"cases":[{"docs":[],"id":{"span":{"length":1,"offset":64},"string":"a"},"ty":null}],"docs":[],"id":{"span":{"length":1,"offset":60},"string":"v"}}}},{"type":{"record":{"docs":[],"fields":[{"docs":[],"id":{"span":{"length":1,"offset":79},"string":"x"},"ty":{"u8":{"length":2,"offset":82}}}],"id":{"span":{"length":1,"offset":75},"string":"q"}}}},{"type":{"flags":{"docs":[],"flags":[{"docs":[],"id":{"span":{"length":1,"offset":97},"string":"a"}}],"id":{"span":{"length":1,"offset":93},"string":"f"}}}},{"type":{"enum":{"cases":[{"docs":[],"id":{"span":{"length":1,"offset":110},"string":"a"}}],"docs":[],"id":{"span":{"length":1,"offset":106},"string":"e"}}}},{"type":{"alias":{"docs":[],"id":{"span":{"length":1,"offset":119},"string":"t"},"kind":{"type":{"u8":{"length":2,"offset":123}}}}}},{"import":{"docs":[{"comment":"i","span":{"length":5,"offset":127}}],"path":{"package":{"name":"c:d","segments":"e","span":{"length":5,"offset":140},"string":"c:d/e","version":null}}}},{"import":{"docs":[],"path":{"named":{"id":{"span":{"length":1,"offset":154},"string":"f"},"ty":{"func":{"isAsync":false,"params":[],"results":"empty"}}}}}},{"import":{"docs":[],"path":{"named":{"id":{"span":{"length":1,"offset":172},"string":"g"},"ty":{"interface":{"items":[{"export":{"docs":[],"id":{"span":{"length":1,"offset":187},"string":"h"},"ty":{"ident":{"span":{"length":1,"offset":190},"string":"k"}}}}]}}}}}},{"import":{"docs":[],"path":{"ident":{"span":{"length":1,"offset":203},"string":"i"}}}},{"import":{"docs":[],"path":{"named":{"id":{"span":{"length":1,"offset":213},"string":"h"},"ty":{"ident":{"span":{"length":1,"offset":216},"string":"t"}}}}}},{"export":{"docs":[{"comment":"e","span":{"length":5,"offset":219}}],"path":{"package":{"name":"c:d","segments":"e","span":{"length":11,"offset":232},"string":"c:d/e@1.0.0","version":"1.0.0"}}}},{"export":{"docs":[],"path":{"named":{"id":{"span":{"length":1,"offset":252},"string":"f"},"ty":{"func":{"isAsync":false,"params":[],"results":"empty"}}}}}},{"export":{"docs":[],"path":{"named":{"id":{"span":{"length":1,"offset":270},"string":"g"},"ty":{"interface":{"items":[]}}}}}},{"export":{"docs":[],"path":{"ident":{"span":{"length":1,"offset":295},"string":"i"}}}},{"export":{"docs":[],"path":{"named":{"id":{"span":{"length":1,"offset":305},"string":"h"},"ty":{"ident":{"span":{"length":1,"offset":308},"string":"t"}}}}}},{"include":{"docs":[{"comment":"n","span":{"length":5,"offset":311}}],"with":[],"world":{"ident":{"span":{"length":1,"offset":325},"string":"x"}}}},{"include":{"docs":[],"with":[{"from":{"span":{"length":1,"offset":349},"string":"a"},"to":{"span":{"length":1,"offset":354},"string":"b"}},{"from":{"span":{"length":2,"offset":357},"string":"c"},"to":{"span":{"length":1,"offset":363},"string":"d"}}],"world":{"package":{"name":"c:d","segments":"v","span":{"length":5,"offset":336},"string":"c:d/v","version":null}}}},{"include":{"docs":[],"with":[],"world":{"ident":{"span":{"length":1,"offset":376},"string":"y"}}}}]}}}]}"#,
    ),
    // stream
    (
        "package a:b; type t = stream<u8>;",
        r#"{"directive":{"package":{"name":"a:b","span":{"length":3,"offset":8},"string":"a:b","version":null}},"docs":[],"statements":[{"Type":{"type":{"alias":{"docs":[],"id":{"span":{"length":1,"offset":18},"string":"t"},"kind":{"type":{"stream":[{"u8":{"length":2,"offset":29}},{"length":10,"offset":22}]}}}}}}]}"#,
    ),
    // result of nothing, in brackets
    (
        "package a:b; type t = result<_, _>;",
        r#"{"directive":{"package":{"name":"a:b","span":{"length":3,"offset":8},"string":"a:b","version":null}},"docs":[],"statements":[{"Type":{"type":{"alias":{"docs":[],"id":{"span":{"length":1,"offset":18},"string":"t"},"kind":{"type":{"result":{"err":null,"ok":null,"span":{"length":12,"offset":22}}}}}}}}]}"#,
    ),
    // result of nothing
    (
        "package a:b; type t = result;",
        r#"{"directive":{"package":{"name":"a:b","span":{"length":3,"offset":8},"string":"a:b","version":null}},"docs":[],"statements":[{"Type":{"type":{"alias":{"docs":[],"id":{"span":{"length":1,"offset":18},"string":"t"},"kind":{"type":{"result":{"err":null,"ok":null,"span":{"length":6,"offset":22}}}}}}}}]}"#,
    ),
    // function that returns nothing, with an arrow
    (
        "package a:b; interface i { f: func() -> ; }",
        r#"{"directive":{"package":{"name":"a:b","span":{"length":3,"offset":8},"string":"a:b","version":null}},"docs":[],"statements":[{"Type":{"interface":{"docs":[],"id":{"span":{"length":1,"offset":23},"string":"i"},"items":[{"export":{"docs":[],"id":{"span":{"length":1,"offset":27},"string":"f"},"ty":{"func":{"isAsync":false,"params":[],"results":"empty"}}}}]}}}]}"#,
    ),
    // results with names, the last with a comma
    (
        "package a:b; interface i { f: func() -> (a: u32, %b: string,); }",
        r#"{"directive":{"package":{"name":"a:b","span":{"length":3,"offset":8},"string":"a:b","version":null}},"docs":[],"statements":[{"Type":{"interface":{"docs":[],"id":{"span":{"length":1,"offset":23},"string":"i"},"items":[{"export":{"docs":[],"id":{"span":{"length":1,"offset":27},"string":"f"},"ty":{"func":{"isAsync":false,"params":[],"results":{"named":[{"id":{"span":{"length":1,"offset":41},"string":"a"},"ty":{"u32":{"length":3,"offset":44}}},{"id":{"span":{"length":2,"offset":49},"string":"b"},"ty":{"string":{"length":6,"offset":53}}}]}}}}}]}}}]}"#,
    ),
    // export with accesses
    (
        "package a:b; export (x.y)[ \"q\" ].z as \"n\";",
        r#"{"directive":{"package":{"name":"a:b","span":{"length":3,"offset":8},"string":"a:b","version":null}},"docs":[],"statements":[{"Export":{"docs":[],"expr":{"postfix":[{"namedAccess":{"span":{"length":7,"offset":25},"string":{"span":{"length":3,"offset":27},"value":"q"}}},{"access":{"id":{"span":{"length":1,"offset":33},"string":"z"},"span":{"length":2,"offset":32}}}],"primary":{"nested":{"inner":{"postfix":[{"access":{"id":{"span":{"length":1,"offset":23},"string":"y"},"span":{"length":2,"offset":22}}}],"primary":{"ident":{"span":{"length":1,"offset":21},"string":"x"}},"span":{"length":3,"offset":21}},"span":{"length":5,"offset":20}}},"span":{"length":14,"offset":20}},"options":{"rename":{"string":{"span":{"length":3,"offset":38},"value":"n"}}}}}]}"#,
    ),
    // fill before another argument
    (
        "package a:b; let x = new c:d { ..., y };",
        r#"{"directive":{"package":{"name":"a:b","span":{"length":3,"offset":8},"string":"a:b","version":null}},"docs":[],"statements":[{"Let":{"docs":[],"expr":{"postfix":[],"primary":{"new":{"arguments":[{"fill":{"length":3,"offset":31}},{"inferred":{"span":{"length":1,"offset":36},"string":"y"}}],"package":{"name":"c:d","span":{"length":3,"offset":25},"string":"c:d","version":null},"span":{"length":18,"offset":21}}},"span":{"length":18,"offset":21}},"id":{"span":{"length":1,"offset":17},"string":"x"}}}]}"#,
    ),
    // static method
    (
        "package a:b; interface i { resource r { f: static func(); } }",
        r#"{"directive":{"package":{"name":"a:b","span":{"length":3,"offset":8},"string":"a:b","version":null}},"docs":[],"statements":[{"Type":{"interface":{"docs":[],"id":{"span":{"length":1,"offset":23},"string":"i"},"items":[{"type":{"resource":{"docs":[],"id":{"span":{"length":1,"offset":36},"string":"r"},"methods":[{"method":{"docs":[],"id":{"span":{"length":1,"offset":40},"string":"f"},"isStatic":true,"ty":{"isAsync":false,"params":[],"results":"empty"}}}]}}}]}}}]}"#,
    ),
    // method
    (
        "package a:b; interface i { resource r { f: func(); } }",
        r#"{"directive":{"package":{"name":"a:b","span":{"length":3,"offset":8},"string":"a:b","version":null}},"docs":[],"statements":[{"Type":{"interface":{"docs":[],"id":{"span":{"length":1,"offset":23},"string":"i"},"items":[{"type":{"resource":{"docs":[],"id":{"span":{"length":1,"offset":36},"string":"r"},"methods":[{"method":{"docs":[],"id":{"span":{"length":1,"offset":40},"string":"f"},"isStatic":false,"ty":{"isAsync":false,"params":[],"results":"empty"}}}]}}}]}}}]}"#,
    ),
    // docs of cases
    (
        "package a:b; variant v {\n/// one\na, /// two\nb(u8), }",
        r#"{"directive":{"package":{"name":"a:b","span":{"length":3,"offset":8},"string":"a:b","version":null}},"docs":[],"statements":[{"Type":{"type":{"variant":{"cases":[{"docs":[{"comment":"one","span":{"length":7,"offset":25}}],"id":{"span":{"length":1,"offset":33},"string":"a"},"ty":null},{"docs":[{"comment":"two","span":{"length":7,"offset":36}}],"id":{"span":{"length":1,"offset":44},"string":"b"},"ty":{"u8":{"length":2,"offset":46}}}],"docs":[],"id":{"span":{"length":1,"offset":21},"string":"v"}}}}}]}"#,
    ),
    // escaped text
    (
        "package a:b; /// \"q\" \\ é a\tb\nlet x = y[\"/\\\"];",
        r#"{"directive":{"package":{"name":"a:b","span":{"length":3,"offset":8},"string":"a:b","version":null}},"docs":[],"statements":[{"Let":{"docs":[{"comment":"\"q\" \\ é a\tb","span":{"length":16,"offset":13}}],"expr":{"postfix":[{"namedAccess":{"span":{"length":6,"offset":39},"string":{"span":{"length":4,"offset":40},"value":"/\\"}}}],"primary":{"ident":{"span":{"length":1,"offset":38},"string":"y"}},"span":{"length":7,"offset":38}},"id":{"span":{"length":1,"offset":34},"string":"x"}}}]}"#,
    ),
];

/// Whether the tree of a text has this JSON, as a user gets it.
///
/// The call owns the document, so that no test has to be proved to drop one.
pub(crate) fn has_json(alloc: Global, source: &str, json: &str) -> Result<bool, AllocError> {
    match to_json(alloc, source) {
        Ok(text) => Ok(text.as_str() == json),
        Err(Error::Memory(_)) => Err(AllocError),
        Err(_) => Ok(false),
    }
}
