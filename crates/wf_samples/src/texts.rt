// Specifications of the grammars that the tests share. Each module has the ports that its bodies name.

/// A module S that is done by a P and a Q behind it.
pub const LINE: &str =
    r#"{"start":"S","modules":[{"name":"S","in":["a"],"out":["b"]},{"name":"P","in":["x"],"out":["y"]},{"name":"Q","in":["x"],"out":["y"]}],"productions":[{"head":"S","body":[["u","P"],["v","Q"]],"edges":[["u.y","v.x"]],"in":[["a","u.x"]],"out":[["v.y","b"]]}]}"#;

/// An L is done by a P and an L behind it, or by a P.
pub const LOOP: &str =
    r#"{"start":"S","modules":[{"name":"S","in":["a"],"out":["b"]},{"name":"L","in":["x"],"out":["y"]},{"name":"P","in":["x"],"out":["y"]}],"productions":[{"head":"S","body":[["u","L"]],"edges":[],"in":[["a","u.x"]],"out":[["u.y","b"]]},{"head":"L","body":[["w","P"],["l","L"]],"edges":[["w.y","l.x"]],"in":[["x","w.x"]],"out":[["l.y","y"]]},{"head":"L","body":[["w","P"]],"edges":[],"in":[["x","w.x"]],"out":[["w.y","y"]]}]}"#;

/// An A is done by a P and a B behind it, or by a P, and a B by a Q and an A behind it, or by a Q.
pub const PAIR: &str =
    r#"{"start":"A","modules":[{"name":"A","in":["a"],"out":["b"]},{"name":"B","in":["a"],"out":["b"]},{"name":"P","in":["x"],"out":["y"]},{"name":"Q","in":["x"],"out":["y"]}],"productions":[{"head":"A","body":[["x","P"],["m","B"]],"edges":[["x.y","m.a"]],"in":[["a","x.x"]],"out":[["m.b","b"]]},{"head":"A","body":[["x","P"]],"edges":[],"in":[["a","x.x"]],"out":[["x.y","b"]]},{"head":"B","body":[["y","Q"],["m","A"]],"edges":[["y.y","m.a"]],"in":[["a","y.x"]],"out":[["m.b","b"]]},{"head":"B","body":[["y","Q"]],"edges":[],"in":[["a","y.x"]],"out":[["y.y","b"]]}]}"#;

/// An S is done by a P and a Q behind it, or by a Q and a P behind it.
pub const FORKING: &str =
    r#"{"start":"S","modules":[{"name":"S","in":["a"],"out":["b"]},{"name":"P","in":["x"],"out":["y"]},{"name":"Q","in":["x"],"out":["y"]}],"productions":[{"head":"S","body":[["u","P"],["v","Q"]],"edges":[["u.y","v.x"]],"in":[["a","u.x"]],"out":[["v.y","b"]]},{"head":"S","body":[["u","Q"],["v","P"]],"edges":[["u.y","v.x"]],"in":[["a","u.x"]],"out":[["v.y","b"]]}]}"#;

/// S is done by an L, and an L by a W, an L and a W again, or by a T. W joins its ports crosswise, T straight.
pub const TWISTING: &str =
    r#"{"start":"S","modules":[{"name":"S","in":["a1","a2"],"out":["b1","b2"]},{"name":"L","in":["x1","x2"],"out":["y1","y2"]},{"name":"W","in":["x1","x2"],"out":["y1","y2"]},{"name":"T","in":["x1","x2"],"out":["y1","y2"]}],"productions":[{"head":"S","body":[["u","L"]],"edges":[],"in":[["a1","u.x1"],["a2","u.x2"]],"out":[["u.y1","b1"],["u.y2","b2"]]},{"head":"L","body":[["w","W"],["l","L"],["v","W"]],"edges":[["w.y1","l.x1"],["w.y2","l.x2"],["l.y1","v.x1"],["l.y2","v.x2"]],"in":[["x1","w.x1"],["x2","w.x2"]],"out":[["v.y1","y1"],["v.y2","y2"]]},{"head":"L","body":[["t","T"]],"edges":[],"in":[["x1","t.x1"],["x2","t.x2"]],"out":[["t.y1","y1"],["t.y2","y2"]]}],"deps":[{"module":"W","pairs":[["x1","y2"],["x2","y1"]]},{"module":"T","pairs":[["x1","y1"],["x2","y2"]]}]}"#;
