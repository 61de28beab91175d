// The reports of symmetries of some systems, from a model that was written apart.

pub const CONSTANT: &[u8] =
    b"lie symmetries 1, polynomial components only\nvars x\ndeps u\nfree f1(x,u)\nfree f2(u)\n\
    general x = f1\ngeneral u = f2\nremaining 0\ngenerators -\ncommutators -\nend\n";

pub const STILL: &[u8] =
    b"lie symmetries 1, polynomial components only\nvars x t\ndeps u\nfree f1(x,t,u)\nfree \
    f2(x,u)\nfree f3(x,u)\ngeneral x = f2\ngeneral t = f1\ngeneral u = f3\nremaining 0\ngenerators \
    -\ncommutators -\nend\n";

pub const LINE: &[u8] =
    b"lie symmetries 1, polynomial components only\nvars x\ndeps y\nfree f1()\nfree f2()\nfree \
    f3()\nfree f4()\nfree f5()\nfree f6()\nfree f7()\nfree f8()\ngeneral x = x*y*f5 + x^2*f4 + \
    y*f3 + x*f2 + f1\ngeneral y = y*f8 + x*f7 + f6 + y^2*f5 + x*y*f4\nremaining 0\ngenerators 8\n\
    v1 = d_x\nv2 = x*d_x\nv3 = y*d_x\nv4 = x^2*d_x + x*y*d_y\nv5 = x*y*d_x + y^2*d_y\nv6 = d_y\nv7 \
    = x*d_y\nv8 = y*d_y\ncommutators 28\n[v1,v2] = v1\n[v1,v3] = 0\n[v1,v4] = 2*v2 + v8\n[v1,v5] = \
    v3\n[v1,v6] = 0\n[v1,v7] = v6\n[v1,v8] = 0\n[v2,v3] = -v3\n[v2,v4] = v4\n[v2,v5] = 0\n[v2,v6] \
    = 0\n[v2,v7] = v7\n[v2,v8] = 0\n[v3,v4] = v5\n[v3,v5] = 0\n[v3,v6] = -v1\n[v3,v7] = -v2 + v8\n\
    [v3,v8] = -v3\n[v4,v5] = 0\n[v4,v6] = -v7\n[v4,v7] = 0\n[v4,v8] = 0\n[v5,v6] = -v2 - 2*v8\n\
    [v5,v7] = -v4\n[v5,v8] = -v5\n[v6,v7] = 0\n[v6,v8] = v6\n[v7,v8] = v7\nend\n";

pub const HEAT: &[u8] =
    b"lie symmetries 1, polynomial components only\nvars x t\ndeps u\nfree f1(x,t)\nfree f2()\n\
    free f3()\nfree f4()\nfree f5()\nfree f6()\nfree f7()\ngeneral x = 8*x*t*f6 + 4*x*f5 + 4*t*f3 \
    + 4*f2\ngeneral t = 8*t^2*f6 + 8*t*f5 + 8*f4\ngeneral u = u*f7 - 2*x^2*u*f6 - 4*t*u*f6 - \
    2*x*u*f3 + 8*f1\nremaining 1\nf1_xx - f1_t = 0\ngenerators -\ncommutators -\nend\n";

pub const KORTEWEG_DE_VRIES: &[u8] =
    b"lie symmetries 1, polynomial components only\nvars x t\ndeps u\nfree f1()\nfree f2()\nfree \
    f3()\nfree f4()\ngeneral x = t*f3 + x*f2 + f1\ngeneral t = f4 + 3*t*f2\ngeneral u = f3 - \
    2*u*f2\nremaining 0\ngenerators 4\nv1 = d_x\nv2 = x*d_x + 3*t*d_t - 2*u*d_u\nv3 = t*d_x + d_u\n\
    v4 = d_t\ncommutators 6\n[v1,v2] = v1\n[v1,v3] = 0\n[v1,v4] = 0\n[v2,v3] = 2*v3\n[v2,v4] = \
    -3*v4\n[v3,v4] = -v1\nend\n";

pub const BURGERS: &[u8] =
    b"lie symmetries 1, polynomial components only\nvars x t\ndeps u\nfree f1()\nfree f2()\nfree \
    f3()\nfree f4()\nfree f5()\ngeneral x = x*t*f4 + t*f3 + x*f2 + f1\ngeneral t = f5 + t^2*f4 + \
    2*t*f2\ngeneral u = -t*u*f4 + x*f4 + f3 - u*f2\nremaining 0\ngenerators 5\nv1 = d_x\nv2 = \
    x*d_x + 2*t*d_t - u*d_u\nv3 = t*d_x + d_u\nv4 = x*t*d_x + t^2*d_t - t*u*d_u + x*d_u\nv5 = d_t\n\
    commutators 10\n[v1,v2] = v1\n[v1,v3] = 0\n[v1,v4] = v3\n[v1,v5] = 0\n[v2,v3] = v3\n[v2,v4] = \
    2*v4\n[v2,v5] = -2*v5\n[v3,v4] = 0\n[v3,v5] = -v1\n[v4,v5] = -v2\nend\n";

pub const PAINLEVE: &[u8] =
    b"lie symmetries 1, polynomial components only\nvars x\ndeps u\ngeneral x = 0\ngeneral u = 0\n\
    remaining 0\ngenerators 0\ncommutators 0\nend\n";
